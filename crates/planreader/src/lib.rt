// Plan files read: a file's bytes into the plan that they hold, by value, or a refusal with its record.
#![tactic(auto)]

mod entry;
mod items;
mod names;
mod numeral;
mod opening;
mod quiet;
mod records;

ghost use Rattle.std.specs.Prelude.{◌≡◌};
ghost use Rattle.planfile.specs.Reading.{read_file};
ghost use Rattle.planreader.specs.Columns.{reading_of};

pub use items::Items;
pub use names::Name;
use planning::{MOST_DELIVERIES, MOST_ENGINES, MOST_QUIET, Mode, Refusal};

// The plan of a file by value, as specs/Columns' `by_value` has it. A quiet span has three numbers: its engine, counted from 1, FROM and TO; the spans
// fill the list from the front, and 0 stands behind them: the allocation on numbers takes those of the spans one behind the other, as they stand.
// They are an array with their count, as no heap may hold them.
#[derive(Clone, Copy)]
pub struct FilePlan {
    pub mode: Mode,
    pub minutes: u64,
    pub allowance: u64,
    pub engines: Items<MOST_ENGINES>,
    pub spans: usize,
    pub quiet: [[u64; 3]; MOST_QUIET],
    pub deliveries: Items<MOST_DELIVERIES>,
}

// Reads a whole file: its beginning, then the other records. The plan is made and handed back here alone: handed on from a second function
// it is copied once more.
pub fn read(file: &[u8]) -> Result<FilePlan, Refusal>
    ensures { result ≡ reading_of (read_file file.now) }
{
    let (opening, next) = opening::begin(file)?;
    let mut plan = FilePlan {
        mode: opening.mode,
        minutes: opening.minutes,
        allowance: opening.allowance,
        engines: Items::none(),
        spans: 0,
        quiet: [[0; 3]; MOST_QUIET],
        deliveries: Items::none(),
    };
    records::read(file, next, &mut plan)?;
    Ok(plan)
}
