// What a plan comes to in some minutes: document 01's capacities, with the minutes that an engine runs counted one by one.
use crate::lists::List;
use planning::PlanLists;

// The capacities of engines, and deliveries to be served from them by pieces of n parts of a watt-hour.
#[derive(Clone, Copy)]
pub(crate) struct Task<'a> {
    pub capacities: &'a [u64],
    energies: &'a [u64],
    limits: &'a [u64],
    parts: u64,
}

// A number of a list, or 0 behind its end: a piece that is not there is 0 Wh, so no Option.
pub(crate) fn entry(list: &[u64], at: usize) -> u64 {
    list.get(at).copied().unwrap_or(0)
}

impl<'a> Task<'a> {
    // A plan's deliveries, with these capacities of its engines.
    pub(crate) fn of(plan: PlanLists<'a>, capacities: &'a [u64], parts: u64) -> Task<'a> {
        Task {
            capacities,
            energies: plan.energies,
            limits: plan.limits,
            parts,
        }
    }

    pub(crate) fn engines(&self) -> usize {
        self.capacities.len()
    }

    pub(crate) fn deliveries(&self) -> usize {
        self.energies.len()
    }

    // How many engines may serve a delivery.
    pub(crate) fn limit(&self, delivery: usize) -> u64 {
        entry(self.limits, delivery)
    }

    // What a delivery asks for: n × ENERGY.
    pub(crate) fn wanted(&self, delivery: usize) -> u64 {
        self.parts.saturating_mul(entry(self.energies, delivery))
    }

    // What an engine can give: n × its capacity.
    pub(crate) fn offered(&self, engine: usize) -> u64 {
        self.parts.saturating_mul(entry(self.capacities, engine))
    }
}

// Whether an engine, counted from 1, runs in a minute: no span of the list is the engine's and has the minute.
fn runs(quiet: &[u64], engine: u64, minute: u64) -> bool {
    let (spans, _) = quiet.as_chunks::<3>();
    !spans.iter().any(|[of, from, to]| *of == engine && (*from..*to).contains(&minute))
}

// How many of the minutes before one an engine, counted from 1, runs.
fn running(quiet: &[u64], engine: u64, minutes: u64) -> u64 {
    (0..minutes)
        .filter(|minute| runs(quiet, engine, *minute))
        .count() as u64
}

// The minutes that each engine runs.
pub(crate) fn running_each(plan: PlanLists, minutes: u64) -> List {
    let mut each = List::new(0, plan.watts.len());
    for (engine, count) in each.items_mut().iter_mut().enumerate() {
        *count = running(plan.quiet, engine as u64 + 1, minutes);
    }
    each
}

// The capacity of each engine: the smaller of FUEL and WATTS × running minutes / 60 rounded down.
pub(crate) fn capacities_of(plan: PlanLists, minutes: u64) -> List {
    let mut each = running_each(plan, minutes);
    for (capacity, (watts, fuel)) in each
        .items_mut()
        .iter_mut()
        .zip(plan.watts.iter().zip(plan.fuels))
    {
        *capacity = (watts.saturating_mul(*capacity) / 60).min(*fuel);
    }
    each
}
