// Compares the allocation on numbers with an exhaustive planner on small plans: the answer of `fixed`, the least minute of `shortest`,
// each with cuttings in watt-hours, halves and thirds, and what a call leaves in the lists it is lent. Prints what was counted for each
// group of plans, first of those without quiet spans, and the first plans of each on which the two differ.
#![tactic(auto)]

mod comparison;
mod cutting;
mod exhaustive;
mod groups;
mod lists;
mod plans;
mod tally;
mod tasks;

use crate::groups::Group;
use crate::plans::Shape;
use crate::tally::Tally;
use std::io::{self, Write};

// Plans without quiet spans.
fn shape(engines: u8, deliveries: u8, size: u8, energy: u8, limit: u8) -> Shape {
    Shape {
        engines,
        deliveries,
        size,
        energy,
        limit,
        ways: 1,
    }
}

// Plans whose engines are quiet in any of the ways.
fn quiet_shape(engines: u8, deliveries: u8) -> Shape {
    Shape {
        engines,
        deliveries,
        size: 3,
        energy: 3,
        limit: 2,
        ways: 9,
    }
}

// Groups of plans, each checked and printed, and what was counted over all of them.
#[derive(Drop)]
struct Checks<'a, W> {
    to: &'a mut W,
    total: Tally,
}

impl<'a, W: Write> Checks<'a, W> {
    fn new(to: &'a mut W) -> Checks<'a, W> {
        Checks {
            to,
            total: Tally::default(),
        }
    }

    fn check(&mut self, group: Group) -> io::Result<()> {
        let tally = group.check(self.to)?;
        self.total.add(&tally);
        Ok(())
    }

    // Checks every plan under `fixed` and one in so many under `shortest`, with some engines of sizes to 3 and at most 3 deliveries of at most 3 Wh.
    fn check_small(&mut self, engines: u8, step_shortest: u64) -> io::Result<()> {
        for deliveries in 0..=3 {
            let shape = shape(engines, deliveries, 3, 3, 3);
            self.check(Group::fixed(shape, 1))?;
            self.check(Group::shortest(6, shape, step_shortest))?;
        }
        Ok(())
    }

    // Checks every small plan, of those with 3 engines under `shortest` one in 5.
    fn check_all_small(&mut self) -> io::Result<()> {
        for (engines, step_shortest) in [(1, 1), (2, 1), (3, 5)] {
            self.check_small(engines, step_shortest)?;
        }
        Ok(())
    }

    // Checks samples of larger plans: a wrong second cut shows with 4 engines, and bulk by whole division breaks no limit with fewer than 5.
    // One plan in 59 takes in a plan where it does.
    fn check_samples(&mut self) -> io::Result<()> {
        let samples = [
            Group::fixed(shape(2, 4, 5, 6, 2), 101),
            Group::fixed(shape(3, 3, 5, 6, 3), 211),
            Group::fixed(shape(3, 4, 4, 4, 3), 1409),
            Group::fixed(shape(4, 3, 4, 4, 4), 997),
            Group::fixed(shape(5, 2, 2, 5, 4), 59),
            Group::shortest(8, shape(3, 3, 5, 5, 3), 499),
        ];
        for sample in samples {
            self.check(sample)?;
        }
        Ok(())
    }

    // Checks one plan in so many under each mode, with some engines of sizes to 3, quiet in any of the ways, and so many deliveries.
    fn check_quiet(&mut self, engines: u8, deliveries: u8, step: u64) -> io::Result<()> {
        let shape = quiet_shape(engines, deliveries);
        self.check(Group::fixed(shape, step))?;
        self.check(Group::shortest(8, shape, step))
    }

    // Checks plans with quiet spans: every one of 1 engine, and of 2 with 1 delivery, and samples of larger ones.
    fn check_all_quiet(&mut self) -> io::Result<()> {
        for (engines, step_one, step_two) in [(1, 1, 1), (2, 1, 5), (3, 53, 251)] {
            self.check_quiet(engines, 1, step_one)?;
            self.check_quiet(engines, 2, step_two)?;
        }
        Ok(())
    }

    // Prints the total.
    fn print(&mut self, title: &[u8]) -> io::Result<()> {
        self.to.write_all(title)?;
        self.total.print(
            self.to,
            b", # none; # with a limit 1, # with deliveries alike, # with a capacity 0; # differences\n",
        )
    }

    // Prints what is counted of plans with quiet spans alone.
    fn print_quiet(&mut self) -> io::Result<()> {
        self.total.print_quiet(self.to)
    }
}

fn check_without_spans<W: Write>(to: &mut W) -> io::Result<()> {
    let mut checks = Checks::new(to);
    checks.check_all_small()?;
    checks.check_samples()?;
    checks.print(b"all\n")
}

fn check_with_spans<W: Write>(to: &mut W) -> io::Result<()> {
    let mut checks = Checks::new(to);
    checks.check_all_quiet()?;
    checks.print(b"all with quiet spans\n")?;
    checks.print_quiet()
}

// Plans without quiet spans, and then plans with them.
fn check_all<W: Write>(to: &mut W) -> io::Result<()> {
    to.write_all(
        b"The allocation's answers against those of trying every cutting in 1, 2 and 3 parts of a watt-hour.\n",
    )?;
    check_without_spans(to)?;
    check_with_spans(to)
}

fn main(rt: HostRuntime) -> io::Result<()> {
    check_all(&mut rt.stdout())
}
