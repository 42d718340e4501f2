// What the test programs read and print by: a stream read whole and the numbers in it; words, numbers, bytes, modes, plans, answers and
// refusals put into a page; and a page written to a stream.
#![tactic(auto)]

mod answers;
mod numbers;
mod page;
mod pages;
mod plans;
mod scanner;
mod shown;
mod streams;
mod words;

pub use answers::{answer_page, mode_name};
pub use numbers::others;
pub use page::{PAGE_BYTES, Page, written};
pub use pages::{list_page, plan_page, shown_page, words_page};
pub use scanner::Scanner;
pub use streams::{print, read_full};
