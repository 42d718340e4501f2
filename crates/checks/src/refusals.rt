// The refusals on numbers, in the documents' order.
ghost use Rattle.std.specs.Prelude.{◌≡◌, ◌<◌, not, false, length, position, IfSome};
ghost use Rattle.std.specs.List.{zip};
ghost use Rattle.std.specs.Range.{range_inclusive_exhausted};
ghost use Rattle.planning.specs.Numbers.{refusal_of};
ghost use Rattle.planning.specs.Refusals.{verdict_of};
ghost use Rattle.checks.specs.Checked.{call_lent};
ghost use Rattle.checks.specs.Parts.{counts_refusal, values_refusal, sound};

use crate::quiet::check_spans;
use planning::{
    Fault, MOST_DELIVERIES, MOST_ENERGY, MOST_ENGINES, MOST_FUEL, MOST_LIMIT, MOST_MINUTES,
    MOST_TRIES, MOST_WATTS, PlanLists, Refusal,
};
use std::ops::RangeInclusive;

// 3, 8, 7, 9, then 6, and last the quiet spans.
pub(crate) fn refusal(lists: PlanLists, table: usize, spare: usize) -> Result<(), Refusal>
    ensures { result ≡ verdict_of (refusal_of (call_lent lists.entry table spare)) }
{
    if lists.watts.len() != lists.fuels.len()
        || lists.energies.len() != lists.limits.len()
        || lists.quiet.len() % 3 != 0
    {
        return Err(Fault::Fields.at(0));
    }
    counts(lists.watts.len(), lists.energies.len(), table, spare)?;
    values(lists)?;
    check_spans(lists.quiet, lists.watts.len() as u64)
}

// 8, 7 and 9, on lengths alone.
fn counts(engines: usize, deliveries: usize, table: usize, spare: usize) -> Result<(), Refusal>
    ensures { result ≡ verdict_of (counts_refusal engines deliveries table spare) }
{
    if engines == 0 {
        return Err(Fault::NoEngine.at(0));
    }
    if MOST_ENGINES < engines || MOST_DELIVERIES < deliveries {
        return Err(Fault::Count.at(0));
    }
    if table != deliveries * engines || spare != engines {
        return Err(Fault::Space.at(0));
    }
    Ok(())
}

// 6 over minutes, allowance, engines, deliveries: the first of them with a figure out of its range.
fn values(lists: PlanLists) -> Result<(), Refusal>
    ensures { result ≡ verdict_of (values_refusal (call_lent lists.entry 0 0)) }
{
    if !(1..=MOST_MINUTES).contains(&lists.minutes) || MOST_TRIES < lists.allowance {
        return Err(Fault::Value.at(1));
    }
    if let Some(engine) = first_outside(lists.watts, lists.fuels, 0..=MOST_WATTS, 0..=MOST_FUEL) {
        return Err(Fault::Value.at(2 + engine as u64));
    }
    if let Some(delivery) = first_outside(
        lists.energies,
        lists.limits,
        1..=MOST_ENERGY,
        1..=MOST_LIMIT,
    ) {
        return Err(Fault::Value.at(2 + (lists.watts.len() + delivery) as u64));
    }
    Ok(())
}

// The first place at which one of two lists has a figure out of its range.
#[tactic(auto, unfolding(planning::specs::Numbers::within))]
fn first_outside(
    firsts: &[u64],
    seconds: &[u64],
    first: RangeInclusive<u64>,
    second: RangeInclusive<u64>,
) -> Option<usize>
    requires first { range_inclusive_exhausted first ≡ false }
    requires second { range_inclusive_exhausted second ≡ false }
    ensures inside { IfSome result (λ i. i < length firsts.now) }
    ensures first { result ≡ position (λ pair. not (sound first second pair)) (zip firsts.now seconds.now) }
{
    firsts.iter().zip(seconds).position(
        |(a, b)| -> bool
            requires first { range_inclusive_exhausted first ≡ false }
            requires second { range_inclusive_exhausted second ≡ false }
            ensures { result ≡ not (sound first second (a.entry.now, b.entry.now)) }
        { !(first.contains(a) && second.contains(b)) },
    )
}
