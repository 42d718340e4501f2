// The search state. A delivery is untouched, begun or done. One that is begun lives in the slot of the engine that was first cut
// for it: a cut closes its engine, so that engine's amount is free to hold the delivery's rest.
ghost use Rattle.std.specs.Prelude.{◌≡◌, true, List, ℕ, ◌-◌, ◌^◌, ◌≤◌, ◌<◌, cond, eqb};
ghost use Rattle.planning.specs.Bounds.{most_engines};
ghost use Rattle.search.specs.Layout.{Kept, Picked, Layable, Cuttable, Laid, CutOff, limit_of};
ghost use Rattle.search.specs.Sets.{has};

use planning::MOST_ENGINES;

// Three columns: an array of structs would pad seven bytes of an engine to eight, and a state, which each try copies, from 104 bytes to 120.
#[derive(Clone, Copy)]
pub(crate) struct State {
    // deliveries left, and those of them that no engine was cut for, as sets
    pub left: u64,
    pub untouched: u64,
    // of an open engine what remains; of a slot in use its delivery's rest
    pub amount: [u32; MOST_ENGINES],
    // of a slot in use the set of engines cut for its delivery, a number whose ones are counted; the empty set of a free slot
    pub served: [u16; MOST_ENGINES],
    // of a slot in use its delivery
    pub row: [u8; MOST_ENGINES],
    // the engines still open, as a set
    pub open: u16,
}

// A delivery left: its place in the file, its slot, where it is begun, and its rest.
#[derive(Clone, Copy)]
pub(crate) struct Pick {
    pub row: usize,
    pub slot: Option<usize>,
    pub rest: u32,
}

// The engines open once engine i, which was one of them, has so much remaining: it is closed where that is nothing.
fn open_after(open: u16, i: usize, remaining: u32) -> u16
    requires { (i < most_engines) × (has «open» i ≡ true) }
    ensures { result ≡ cond (eqb remaining 0) («open» - 2 ^ i) «open» }
{
    if remaining == 0 {
        open - (1u16 << i)
    } else {
        open
    }
}

impl State {
    // `lay` and `cut` give each try a state of its own by value, so what a state keeps (`Kept`) is asked for here, and no view carries it.

    // The whole rest of a delivery of limit 1 is laid on engine i.
    pub(crate) fn lay(mut self, pick: Pick, i: usize) -> State
        requires { Layable self pick i }
        ensures { (energy limit : List ℕ) → Kept energy limit self → Picked energy self pick
            → limit_of limit self pick.row ≡ 1
            → Laid energy limit self pick.row i result }
    {
        let remaining = self.amount[i] - pick.rest;
        self.amount[i] = remaining;
        self.open = open_after(self.open, i, remaining);
        self.left -= 1u64 << pick.row;
        match pick.slot {
            Some(slot) => self.served[slot] = 0,
            None => self.untouched -= 1u64 << pick.row,
        }
        self
    }

    // A piece equal to what remains of engine i is cut off a delivery of limit 2 or more, and the engine is closed.
    pub(crate) fn cut(mut self, pick: Pick, i: usize) -> State
        requires { Cuttable self pick i }
        ensures { (energy limit : List ℕ) → Kept energy limit self → Picked energy self pick
            → 2 ≤ limit_of limit self pick.row
            → CutOff energy limit self pick.row i result }
    {
        let rest = pick.rest - self.amount[i];
        self.open -= 1u16 << i;
        match pick.slot {
            Some(slot) => {
                self.amount[slot] = rest;
                self.served[slot] += 1u16 << i;
            }
            None => {
                self.untouched -= 1u64 << pick.row;
                self.amount[i] = rest;
                self.served[i] = 1u16 << i;
                self.row[i] = pick.row as u8;
            }
        }
        self
    }
}
