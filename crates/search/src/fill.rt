// What found by straight fill begins with: the whole table.
ghost use Rattle.std.specs.Prelude.{◌≡◌, ℕ, ◌≤◌, ◌<◌, length};
ghost use Rattle.planning.specs.Bounds.{most_engines, most_deliveries};
ghost use Rattle.planning.specs.Tables.{listed};
ghost use Rattle.planning.specs.Search.{drawn, undrawn, straight_fill};
ghost use Rattle.search.specs.Layout.{remaining_at, rest_of as rest_left, Room};
ghost use Rattle.search.specs.Promises.{engines_of, deliveries_of};
ghost use Rattle.search.specs.Steps.{energies};

use crate::members::has;
use crate::state::State;
use crate::view::View;
use planning::MOST_ENGINES;
use std::array;

// What remains of engine i, 0 of a closed one.
#[tactic(auto, unfolding(crate::specs::Layout::remaining_at))]
fn remaining(s: &State, i: usize) -> u32
    requires { i < most_engines }
    ensures { result ≡ remaining_at s.now.«open» s.now.amount i }
{
    if has(u64::from(s.open), i) {
        s.amount[i]
    } else {
        0
    }
}

// And of each engine.
fn open_amounts(s: &State) -> [u32; MOST_ENGINES]
    ensures { result ≡ listed most_engines (λ i. remaining_at s.now.«open» s.now.amount i) }
{
    array::from_fn(|i| remaining(s, i))
}

// One delivery's row: from each engine in turn what it still has, until the rest is drawn.
fn fill_row(row: &mut [u64], mut rest: u32, remaining: &mut [u32])
    requires { length row.old ≡ length remaining.old }
    ensures drawn { row.new ≡ drawn rest remaining.old }
    ensures remains { remaining.new ≡ undrawn rest remaining.old }
{
    // The row is written by index: over a zip of both slices, tried, what they hold at the end did not prove.
    for (i, left) in remaining.iter_mut().enumerate() {
        let piece = rest.min(*left);
        row[i] = u64::from(piece);
        *left -= piece;
        rest -= piece;
    }
}

impl View<'_> {
    // What is left of a delivery, 0 of one that is done.
    fn rest_of(&self, p: usize) -> u32
        requires { p < most_deliveries }
        ensures { result ≡ rest_left (energies self.now) self.now.state.now p }
    {
        if has(self.state.left, p) {
            self.candidate_at(p).pick.rest
        } else {
            0
        }
    }

    // Every row, in file order.
    pub(crate) fn straight(&self, table: &mut [u64])
        requires { Room self.now.task.now (length table.old) }
        ensures { let s = self.now.state.now in table.new
            ≡ straight_fill
            (listed (deliveries_of self.now.task.now) (λ p. rest_left (energies self.now) s p))
            (listed (engines_of self.now.task.now) (λ i. remaining_at s.«open» s.amount i)) }
    {
        let engines = self.task.capacities.len();
        let mut remaining = open_amounts(self.state);
        // Rows by index: over `chunks_exact_mut`, tried, what the table holds at the end did not prove.
        for p in 0..self.task.energies.len() {
            let from = p * engines;
            fill_row(
                &mut table[from..from + engines],
                self.rest_of(p),
                &mut remaining[..engines],
            );
        }
    }
}
