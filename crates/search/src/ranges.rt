// Whether a search's numbers are in range.
ghost use Rattle.std.specs.Prelude.{◌≡◌, true, ◌↔◌};
ghost use Rattle.search.specs.Promises.{CountsInRange, InSearchRange};

use crate::Task;
use planning::{MOST_DELIVERIES, MOST_ENERGY, MOST_ENGINES, MOST_FUEL, MOST_LIMIT, MOST_TRIES};

impl Task<'_> {
    // Whether the counts, the cells of the table and the allowance are.
    fn counts_in_range(&self, cells: usize) -> bool
        ensures { (result ≡ true) ↔ CountsInRange self.now cells }
    {
        self.capacities.len() <= MOST_ENGINES
            && self.energies.len() <= MOST_DELIVERIES
            && self.limits.len() == self.energies.len()
            && cells == self.energies.len() * self.capacities.len()
            && u64::from(self.allowance) <= MOST_TRIES
    }

    // Whether all are, for a table of so many cells.
    pub(crate) fn in_range(&self, cells: usize) -> bool
        ensures { (result ≡ true) ↔ InSearchRange self.now cells }
    {
        self.counts_in_range(cells)
            && self.capacities.iter().all(|x| u64::from(*x) <= MOST_FUEL)
            && self
                .energies
                .iter()
                .all(|&x| (1..=MOST_ENERGY).contains(&u64::from(x)))
            && self
                .limits
                .iter()
                .all(|&x| (1..=MOST_LIMIT).contains(&u64::from(x)))
    }
}
