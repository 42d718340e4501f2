// Steps B to F decided: the bulkiest delivery, in one pass in file order, and the step that it leads to.
ghost use Rattle.std.specs.Prelude.{◌≡◌, true, ℕ, ◌+◌, ◌-◌, ◌^◌, ◌≤◌, ◌<◌, eqb};
ghost use Rattle.std.specs.Int.Count.{ones};
ghost use Rattle.planning.specs.Bounds.{most_engines};
ghost use Rattle.planning.specs.Tables.{listed};
ghost use Rattle.planning.specs.Search.{bulkier as comes_before, smallest_of};
ghost use Rattle.search.specs.Layout.{remaining_at, holds, SlotOf};
ghost use Rattle.search.specs.Sets.{has, Others};
ghost use Rattle.search.specs.Steps.{IsDelivery, IsBulkiest, IsTurn};

use crate::members::{Members, has};
use crate::state::{Pick, State};
use crate::view::View;
use planning::MOST_ENGINES;

// The step that applies. It is matched where choose goes on to it, and is no closure: choose, lay and cut call each other.
#[derive(Drop)]
pub(crate) enum Turn {
    Finished,
    Fill,
    Lay(Pick),
    Cut(Pick),
}

// A delivery left, and the limit that is left of its LIMIT, which is the most engines it may be drawn from, by the set of engines that
// serve it already.
#[derive(Clone, Copy)]
pub(crate) struct Candidate {
    pub pick: Pick,
    limit: u8,
    served: u16,
    most: u8,
}

// Whether p comes before q: limit 1 first, among them the larger rest; else by rest / (limit - 1), multiplied out.
#[tactic(auto, using(crate::specs::Laws::Choice::product_fits), unfolding(planning::specs::Search::bulkier, planning::specs::Search::comes_first))]
fn bulkier(p: Candidate, q: Candidate) -> bool
    requires { (1 ≤ p.limit) × (1 ≤ q.limit) }
    ensures { result ≡ comes_before p.pick.rest p.limit q.pick.rest q.limit }
{
    match (p.limit == 1, q.limit == 1) {
        (true, true) => q.pick.rest < p.pick.rest,
        (true, false) => true,
        (false, true) => false,
        (false, false) => {
            u64::from(q.pick.rest) * (u64::from(p.limit) - 1)
                < u64::from(p.pick.rest) * (u64::from(q.limit) - 1)
        }
    }
}

// The engines that are closed, as a set.
fn closed(open: u16) -> u16
    requires { «open» < 2 ^ most_engines }
    ensures { Others most_engines «open» result }
{
    (1u16 << MOST_ENGINES) - 1 - open
}

// Whether slot k is in use for delivery p.
#[tactic(auto, unfolding(crate::specs::Layout::holds))]
fn is_slot_of(k: usize, s: &State, p: usize) -> bool
    requires { k < most_engines }
    ensures { result ≡ holds s.now.served s.now.row k p }
{
    usize::from(s.row[k]) == p && s.served[k] != 0
}

// The limit that is left: LIMIT less the engines that serve already.
fn limit_left(served: u16, most: u8) -> u8
    requires { ones served ≤ most }
    ensures { result ≡ most - ones served }
{
    most - served.count_ones() as u8
}

// "The set of engines that serve a delivery has at most LIMIT members.": the members that it has, and one more, are LIMIT. Step D applies
// exactly there, since that one engine has to take the whole rest.
fn one_more_is_limit(served: u16, most: u8) -> bool
    ensures { result ≡ eqb (ones served + 1) most }
{
    served.count_ones() + 1 == u32::from(most)
}

impl View<'_> {
    // The slot of a delivery left, where it is begun. Slots of open engines are free, so the closed ones alone are looked at: a pass over
    // all slots, made for every delivery that is begun, would cost each try. One that is begun has a slot among them, so the pass ends
    // there: the last `None` is never reached for a begun delivery.
    fn slot_of(&self, p: usize) -> Option<usize>
        requires { has self.now.state.now.left p ≡ true }
        ensures { let s = self.now.state.now in SlotOf s.untouched s.served s.row p result }
    {
        let s = self.state;
        if has(s.untouched, p) {
            return None;
        }
        Members(u64::from(closed(s.open))).find(|&k| is_slot_of(k, s, p))
    }

    // Delivery p of those left: its energy and no engines, or what its slot has.
    pub(crate) fn candidate_at(&self, p: usize) -> Candidate
        requires { has self.now.state.now.left p ≡ true }
        ensures { IsDelivery self.now p result }
    {
        let s = self.state;
        let slot = self.slot_of(p);
        let (rest, served) = slot.map_or(
            (self.task.energies[p], 0),
            |k| (s.amount[k], s.served[k]),
        );
        let most = self.task.limits[p];
        Candidate {
            pick: Pick { row: p, slot, rest },
            limit: limit_left(served, most),
            served,
            most,
        }
    }

    // The bulkiest delivery, the earlier of two that are equal: one pass in file order, limit 1 and the others together.
    fn bulkiest(&self) -> Option<Candidate>
        ensures { IsBulkiest self.now result }
    {
        // Not by `map` and `reduce`: tried, it was proved, and a try among 30 deliveries takes 18 % longer.
        let mut best = None;
        for p in Members(self.state.left) {
            let next = self.candidate_at(p);
            if best.is_none_or(|first| bulkier(next, first)) {
                best = Some(next);
            }
        }
        best
    }

    // The smallest remaining of open engines; where none is open 0, as the definition has it, so no Option.
    fn smallest(&self) -> u32
        ensures { let s = self.now.state.now in (engines : ℕ) → ((i : ℕ) → has s.«open» i ≡ true → i < engines)
            → result ≡ smallest_of (listed engines (λ i. remaining_at s.«open» s.amount i)) engines }
    {
        let s = self.state;
        Members(u64::from(s.open))
            .map(|i| s.amount[i])
            .min()
            .unwrap_or(0)
    }

    // The step that applies.
    pub(crate) fn next_turn(&self) -> Turn
        ensures { IsTurn self.now result }
    {
        let Some(best) = self.bulkiest() else {
            return Turn::Finished;
        };
        if one_more_is_limit(best.served, best.most) {
            return Turn::Lay(best.pick);
        }
        let least = self.smallest();
        if u64::from(best.pick.rest) <= (u64::from(best.limit) - 1) * u64::from(least) {
            Turn::Fill
        } else {
            Turn::Cut(best.pick)
        }
    }
}
