// The checks of the allocation on numbers, and the plan by value behind them.
#![tactic(auto)]

mod columns;
mod quiet;
mod refusals;

ghost use Rattle.std.specs.Prelude.{◌≡◌};
ghost use Rattle.checks.specs.Checked.{call_lent, checked_of};

use planning::{Plan, PlanLists, Refusal};

// Refuses in the documents' order, or hands back the plan. Of the lent table and spare list it is told the lengths.
pub fn check(lists: PlanLists, table: usize, spare: usize) -> Result<Plan, Refusal>
    ensures { result ≡ checked_of (call_lent lists.entry table spare) }
{
    refusals::refusal(lists, table, spare)?;
    Ok(columns::plan_of(lists))
}
