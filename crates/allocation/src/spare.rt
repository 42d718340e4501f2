// What each engine has to spare.
ghost use Rattle.std.specs.Prelude.{◌≡◌, ◌≤◌, ◌<◌, length};
ghost use Rattle.planning.specs.Bounds.{most_fuel};
ghost use Rattle.planning.specs.ByValue.{plan_in};
ghost use Rattle.planning.specs.Cutting.{Serves};
ghost use Rattle.planning.specs.Modes.{spares};
ghost use Rattle.planning.specs.Tables.{piece_in};
ghost use Rattle.allocation.specs.Laws.Spares.{load_at};

use crate::accepted::Accepted;
use crate::capacity;

impl Accepted<'_> {
    // Each engine's capacity less its pieces in a table that serves the plan in those minutes.
    pub(crate) fn write_spares(&self, minutes: u16, spare: &mut [u64])
        requires serves { Serves 1 (plan_in self.now.plan) minutes (piece_in self.now.plan.engines.count self.now.table.now) }
        requires spare { length spare.old ≡ self.now.plan.engines.count }
        ensures { spare.new ≡ spares (plan_in self.now.plan) minutes self.now.table.now }
    {
        let capacities = capacity::capacities(&self.plan.engines, minutes);
        // By place, as the capacities are written (`capacity`).
        for (i, left) in spare.iter_mut().enumerate() {
            *left = u64::from(capacities[i]) - self.load(i);
        }
    }

    // The sum of one engine's pieces, which is at most its capacity.
    fn load(&self, i: usize) -> u64
        requires inside { i < self.now.plan.engines.count }
        requires most { load_at self.now.plan.engines.count self.now.plan.deliveries.count self.now.table.now i ≤ most_fuel }
        ensures { result ≡ load_at self.now.plan.engines.count self.now.plan.deliveries.count self.now.table.now i }
    {
        // A loop: tried as a chain by `step_by`, whose sum is not proved to fit.
        let mut sum = 0;
        for p in 0..self.plan.deliveries.count {
            sum += self.table[p * self.plan.engines.count + i];
        }
        sum
    }
}
