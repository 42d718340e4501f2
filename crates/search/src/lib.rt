// The search of a plan's numbers, document 01's steps A to F, behind one door that tests its ranges once a search.
#![tactic(auto)]

mod choice;
mod cycle;
mod fill;
mod members;
mod ranges;
mod start;
mod state;
mod view;

ghost use Rattle.search.specs.Promises.{Answers};

use planning::Outcome;

// What is searched: the capacities, and of each delivery the energy and the limit, in file order, with the allowance of tries.
#[derive(Clone, Copy)]
pub struct Task<'a> {
    pub capacities: &'a [u32],
    pub energies: &'a [u32],
    pub limits: &'a [u8],
    pub allowance: u32,
}

// What a search ends in, with its tries.
#[derive(Clone, Copy, Debug, PartialEq, Eq)]
pub struct Ended {
    pub outcome: Outcome,
    pub tries: u32,
}

// A search that was not begun: a number or a length is out of range.
#[derive(Clone, Copy, Debug, PartialEq, Eq)]
pub struct OutOfRange;

// The search of a task, lent a piece table of deliveries × engines: found writes all of it, and otherwise it is kept.
pub fn search(task: Task, table: &mut [u64]) -> Result<Ended, OutOfRange>
    ensures { Answers task.entry table.old result table.new }
{
    if !task.in_range(table.len()) {
        return Err(OutOfRange);
    }
    Ok(start::begin(&task, table))
}
