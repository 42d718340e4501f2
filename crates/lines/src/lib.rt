// Lines put into an output, text by text: what every program prints by. A text goes where the one before it ended, so a line is a chain
// of calls, and an error ends the chain by `?`.
#![tactic(auto)]

mod bytes;
mod field;
mod number;
mod output;
mod place;

pub use number::MOST_DIGITS;
pub use output::Output;

// Why a text was not put: a value held a byte that RFC 4180 has nowhere, or the text did not fit.
#[derive(Clone, Copy, Debug, PartialEq, Eq)]
pub enum WriteError {
    Refused,
    TooLong,
}
