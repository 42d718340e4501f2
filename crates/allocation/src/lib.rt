// The allocation on numbers, in both modes.
#![tactic(auto)]

mod accepted;
mod capacity;
mod modes;
mod spare;

ghost use Rattle.planning.specs.Numbers.{call_of};
ghost use Rattle.planning.specs.Promises.{Promised};

use accepted::Accepted;
use planning::{Answer, Outcome, PlanLists, Refusal};

// Plans on numbers; lent a piece table of deliveries × engines and a spare list, one number for each engine.
pub fn allocate(lists: PlanLists, table: &mut [u64], spare: &mut [u64]) -> Result<Answer, Refusal>
    ensures { Promised (call_of lists.entry table.old spare.old) result table.new spare.new }
{
    let plan = checks::check(lists, table.len(), spare.len())?;
    let mut accepted = Accepted { plan, table };
    let answer = accepted.answer();
    if answer.outcome == Outcome::Found {
        accepted.write_spares(answer.minutes as u16, spare);
    }
    Ok(answer)
}
