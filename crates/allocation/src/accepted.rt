// A plan by value that passed the checks, with the list that is lent for its piece table.
ghost use Rattle.std.specs.Prelude.{◌≡◌, ◌*◌, length};
ghost use Rattle.planning.specs.ByValue.{Usable};
ghost use Rattle.allocation.specs.Usable.{usable-prop};

use planning::Plan;

// The plan's counts and ranges are kept and every column fills its array, and the list has a cell for each delivery and engine.
#[derive(Drop)]
pub(crate) struct Accepted<'a> {
    pub(crate) plan: Plan,
    pub(crate) table: &'a mut [u64],
    ghost usable: { Usable plan } by { usable-prop plan },
    ghost cells: { length table.now ≡ plan.deliveries.count * plan.engines.count },
}
