// Step A, and the state that the other steps begin in.
ghost use Rattle.std.specs.Prelude.{◌≡◌, ℕ, ◌≤◌, ◌^◌, ltb, length, sum};
ghost use Rattle.planning.specs.Bounds.{most_engines, most_deliveries};
ghost use Rattle.planning.specs.Tables.{at, padded};
ghost use Rattle.search.specs.Promises.{InSearchRange, search_of};
ghost use Rattle.search.specs.Sets.{has};
ghost use Rattle.search.specs.Steps.{EndsIn};

use crate::cycle::Run;
use crate::state::State;
use crate::{Ended, Task};
use planning::{MOST_ENGINES, Outcome};

// The sum of a list.
fn total(list: &[u32]) -> u64
    requires { length list.now ≤ 2 ^ 32 }
    ensures { result ≡ sum list.now }
{
    list.iter().map(|x| u64::from(*x)).sum()
}

// What remains of each engine at first: its capacity, and 0 behind the plan's engines.
fn first_amounts(capacities: &[u32]) -> [u32; MOST_ENGINES]
    requires { length capacities.now ≤ most_engines }
    ensures { result ≡ padded most_engines capacities.now }
{
    let mut amounts = [0; MOST_ENGINES];
    amounts[..capacities.len()].copy_from_slice(capacities);
    amounts
}

// The engines with a capacity above 0, as a set.
fn open_engines(capacities: &[u32]) -> u16
    requires { length capacities.now ≤ most_engines }
    ensures { (i : ℕ) → has result i ≡ ltb 0 (at capacities.now i) }
{
    let mut open: u16 = 0;
    for (i, capacity) in capacities.iter().enumerate() {
        if *capacity != 0 {
            open += 1u16 << i;
        }
    }
    open
}

// The first n deliveries, as a set.
fn first_deliveries(n: usize) -> u64
    requires { n ≤ most_deliveries }
    ensures { (p : ℕ) → has result p ≡ ltb p n }
{
    (1u64 << n) - 1
}

// Step A, then the other steps from the first state.
pub(crate) fn begin(task: &Task, table: &mut [u64]) -> Ended
    requires { InSearchRange task.now (length table.old) }
    ensures { EndsIn (search_of task.now) table.old result table.new }
{
    if total(task.capacities) < total(task.energies) {
        return Ended {
            outcome: Outcome::None,
            tries: 0,
        };
    }
    let left = first_deliveries(task.energies.len());
    let first = State {
        left,
        untouched: left,
        amount: first_amounts(task.capacities),
        served: [0; MOST_ENGINES],
        row: [0; MOST_ENGINES],
        open: open_engines(task.capacities),
    };
    let mut run = Run {
        task,
        table,
        tries: 0,
    };
    let outcome = run.choose(first);
    Ended {
        outcome,
        tries: run.tries,
    }
}
