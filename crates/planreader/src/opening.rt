// The beginning of a file: its size, and record 1 with the plan's mode, minutes and allowance.
ghost use Rattle.std.specs.Prelude.{◌≡◌};
ghost use Rattle.planreader.specs.Opening.{mode_named, opening_read, read_opening, FirstRead, BeginsBy};

use crate::entry::Entry;
use crate::numeral;
use planfile::MOST_BYTES;
use planning::{Fault, MOST_MINUTES, MOST_TRIES, Mode, Refusal};

// The values of record 1.
#[derive(Clone, Copy)]
pub(crate) struct Opening {
    pub mode: Mode,
    pub minutes: u64,
    pub allowance: u64,
}

// A mode by its word.
#[tactic(auto, unfolding(crate::specs::Opening::mode_by, crate::specs::Opening::mode_named, rfc4180::specs::Text::ascii))]
fn mode_of(text: &[u8]) -> Option<Mode>
    ensures { result ≡ mode_named text.now }
{
    match text {
        b"fixed" => Some(Mode::Fixed),
        b"shortest" => Some(Mode::Shortest),
        _ => None,
    }
}

// Reads record 1, which has four fields: 4, then its fields from the left.
fn read(entry: &Entry<'_>) -> Result<Opening, Fault>
    ensures { opening_read result ≡ read_opening entry.now.text.now }
{
    if entry.part(0) != b"plan".as_slice() {
        return Err(Fault::Kind);
    }
    let mode = mode_of(entry.part(1)).ok_or(Fault::Value)?;
    let minutes = numeral::in_range(entry.part(2), &(1..=MOST_MINUTES)).ok_or(Fault::Value)?;
    let allowance = numeral::in_range(entry.part(3), &(0..=MOST_TRIES)).ok_or(Fault::Value)?;
    Ok(Opening {
        mode,
        minutes,
        allowance,
    })
}

// Reads record 1 of a file: 2 and 3, then what it holds. Behind it record 2 begins.
fn first(file: &[u8]) -> Result<(Opening, usize), Fault>
    ensures { FirstRead file.now result }
{
    let (entry, next) = Entry::cut(file, 0)?;
    Ok((read(&entry)?, next))
}

// Reads the beginning of a file: 1, then record 1.
pub(crate) fn begin(file: &[u8]) -> Result<(Opening, usize), Refusal>
    ensures { BeginsBy file.now result }
{
    if !(1..=MOST_BYTES).contains(&file.len()) {
        return Err(Fault::Size.at(0));
    }
    first(file).map_err(|fault| fault.at(1))
}
