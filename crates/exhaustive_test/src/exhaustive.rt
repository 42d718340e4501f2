// The exhaustive planner: it tries every cutting. It knows what a cutting is and nothing of the search: no bulk, no saturation, no
// straight fill. Cells are filled in the order of the table, each with every piece from 0; pieces that are already too much for the
// delivery or the engine are not continued.
ghost use Rattle.std.specs.Prelude.{◌≤◌};

use crate::cutting::Cutting;
use crate::lists::List;
use crate::tasks::{Task, capacities_of};
use planning::PlanLists;
use std::ops::RangeInclusive;

// The delivery and the engine of a cell.
fn place_of(task: Task, cell: usize) -> (usize, usize) {
    let engines = task.engines().max(1);
    (cell / engines, cell % engines)
}

// Whether the piece in a cell, with 0 in every cell behind it, breaks neither a sum nor the limit. Where it ends a row, its delivery is served.
fn keeps(cutting: Cutting, cell: usize) -> bool {
    let (delivery, engine) = place_of(cutting.task, cell);
    let ends_row = engine.saturating_add(1) == cutting.task.engines();
    cutting.engine_suffices(engine)
        && if ends_row {
            cutting.delivery_served(delivery)
        } else {
            cutting.delivery_kept(delivery)
        }
}

// No larger piece is tried; no delivery here asks for so much.
const LARGEST_PIECE: u64 = 1 << 62;

// The largest piece that a cell can hold: all that its delivery asks for.
fn most_at(task: Task, cell: usize) -> u64
    ensures { result ≤ 4611686018427387904 }
{
    let (delivery, _) = place_of(task, cell);
    task.wanted(delivery).min(LARGEST_PIECE)
}

// Whether some cutting that serves begins with the pieces before a place. From there on the cells are 0, and are again where none does.
fn continues(task: Task, cells: &mut [u64], at: usize) -> bool {
    if cells.len() <= at {
        return Cutting { task, table: cells }.serves();
    }
    for piece in 0..=most_at(task, at) {
        cells[at] = piece;
        if keeps(Cutting { task, table: cells }, at) && continues(task, cells, at + 1) {
            return true;
        }
    }
    cells[at] = 0;
    false
}

// Whether some cutting in n parts serves the plan in so many minutes.
fn is_served(plan: PlanLists, minutes: u64, parts: u64) -> bool {
    let capacities = capacities_of(plan, minutes);
    let task = Task::of(plan, capacities.items(), parts);
    let mut cells = List::new(0, task.engines().saturating_mul(task.deliveries()));
    continues(task, cells.items_mut(), 0)
}

// The first of some minutes in which some cutting in n parts serves the plan.
pub(crate) fn first_served(
    plan: PlanLists,
    mut span: RangeInclusive<u64>,
    parts: u64,
) -> Option<u64> {
    span.find(|minutes| is_served(plan, *minutes, parts))
}
