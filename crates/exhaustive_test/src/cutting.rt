// The definition of a cutting in n equal parts of a watt-hour that serves deliveries from engines of some capacities.
use crate::tasks::{Task, entry};

// A table of pieces for a task: a row for each delivery, and in it a piece of each engine. Tried: one lifetime, but
// its makers lend the task and the table for two, which the check does not take in one.
#[derive(Clone, Copy)]
pub(crate) struct Cutting<'a, 'b> {
    pub task: Task<'a>,
    pub table: &'b [u64],
}

impl<'b> Cutting<'_, 'b> {
    // A delivery's pieces.
    fn row(&self, delivery: usize) -> &'b [u64] {
        let engines = self.task.engines();
        let first = delivery.saturating_mul(engines);
        self.table
            .get(first..first.saturating_add(engines))
            .unwrap_or(&[])
    }

    // The sum of an engine's pieces.
    pub(crate) fn given(&self, engine: usize) -> u64 {
        (0..self.task.deliveries()).fold(0, |sum: u64, delivery| {
            sum.saturating_add(entry(self.row(delivery), engine))
        })
    }

    // The sum of a delivery's pieces.
    fn drawn(&self, delivery: usize) -> u64 {
        self.row(delivery)
            .iter()
            .fold(0, |sum: u64, piece| sum.saturating_add(*piece))
    }

    // Whether at most LIMIT of a delivery's pieces are above 0, and they add up to no more than it asks for.
    pub(crate) fn delivery_kept(&self, delivery: usize) -> bool {
        let meters = self
            .row(delivery)
            .iter()
            .filter(|piece| 0 < **piece)
            .count() as u64;
        meters <= self.task.limit(delivery) && self.drawn(delivery) <= self.task.wanted(delivery)
    }

    // Whether at most LIMIT of a delivery's pieces are above 0, and they add up to what it asks for.
    pub(crate) fn delivery_served(&self, delivery: usize) -> bool {
        self.delivery_kept(delivery) && self.drawn(delivery) == self.task.wanted(delivery)
    }

    // Whether an engine's pieces add up to at most n × its capacity.
    pub(crate) fn engine_suffices(&self, engine: usize) -> bool {
        self.given(engine) <= self.task.offered(engine)
    }

    // Whether the table is a cutting that serves the task: every delivery is served, and every engine suffices.
    pub(crate) fn serves(&self) -> bool {
        (0..self.task.deliveries()).all(|delivery| self.delivery_served(delivery))
            && (0..self.task.engines()).all(|engine| self.engine_suffices(engine))
    }
}
