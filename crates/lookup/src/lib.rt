// The spare lookup: an engine with that much to spare.
#![tactic(auto)]

ghost use Rattle.std.specs.Prelude.{◌≡◌};
ghost use Rattle.planning.specs.SpareLookup.{LookedUp, Names};

use planning::{Fault, MOST_ENERGY, MOST_ENGINES, Refusal};

// Some engine with that much to spare, counted from 0. Which one is the program's choice.
pub fn spare_lookup(spare: &[u64], amount: u64) -> Result<Option<usize>, Refusal>
    ensures { LookedUp spare.now amount result }
{
    if spare.is_empty() {
        return Err(Fault::NoEngine.at(0));
    }
    if MOST_ENGINES < spare.len() {
        return Err(Fault::Count.at(0));
    }
    if !(1..=MOST_ENERGY).contains(&amount) {
        return Err(Fault::Value.at(0));
    }
    Ok(find(spare, amount))
}

// An engine with that much, if one has it.
#[tactic(auto, unfolding(planning::specs::SpareLookup::Names))]
fn find(spare: &[u64], amount: u64) -> Option<usize>
    ensures { Names spare.now amount (Ok result) }
{
    spare.iter().position(|s| amount <= *s)
}
