// What is counted over the plans of a group, and its print.
use crate::comparison::Answered;
use crate::tasks::{capacities_of, running_each};
use planning::PlanLists;
use report::{print, words_page};
use std::io::{self, Write};

// Plans, those answered none, those with a limit 1, with two deliveries alike, with an engine of capacity 0, those on which the planners differ,
// how many numbers were changed behind the lent lists, plans with an engine that is quiet in all of MINUTES, those found in fewer, just behind
// a span, and how many plans are found at each number of minutes.
#[derive(Clone, Copy, Default)]
pub(crate) struct Tally {
    plans: u64,
    none: u64,
    limit_one: u64,
    tied: u64,
    idle: u64,
    pub differences: u64,
    changed: u64,
    wholly_quiet: u64,
    behind_span: u64,
    found: [u64; 9],
}

// Adds to a count, up to its largest number: a test is small, and never comes there.
fn add(count: &mut u64, more: u64) {
    *count = count.saturating_add(more);
}

// Whether two deliveries are alike, which makes them equally bulky.
fn has_tie(plan: PlanLists) -> bool {
    let deliveries = || plan.energies.iter().zip(plan.limits);
    deliveries().enumerate().any(|(i, delivery)| deliveries()
        .take(i)
        .any(|earlier| earlier == delivery))
}

// Whether an answer is found in fewer than MINUTES, and its last minute is the first behind a span.
fn is_behind_span(plan: PlanLists, found: Option<u64>) -> bool {
    let (spans, _) = plan.quiet.as_chunks::<3>();
    found.is_some_and(|minutes| minutes < plan.minutes
        && spans
            .iter()
            .any(|[_, _, to]| Some(*to) == minutes.checked_sub(1)))
}

impl Tally {
    // Counts a plan: by its answer, whether the planners agree on it, and by what makes it hard.
    pub(crate) fn count(&mut self, plan: PlanLists, answer: &Answered, agreed: bool) {
        let found = answer.minutes.ok().flatten();
        if let Some(count) = found.and_then(|minutes| self.found.get_mut(minutes as usize)) {
            add(count, 1);
        }
        let capacities = capacities_of(plan, plan.minutes);
        let running = running_each(plan, plan.minutes);
        self.add(&Tally {
            plans: 1,
            none: u64::from(answer.minutes == Ok(None)),
            limit_one: u64::from(plan.limits.contains(&1)),
            tied: u64::from(has_tie(plan)),
            idle: u64::from(capacities.items().contains(&0)),
            differences: u64::from(!agreed),
            changed: answer.changed(),
            wholly_quiet: u64::from(running.items().contains(&0)),
            behind_span: u64::from(is_behind_span(plan, found)),
            found: [0; 9],
        });
    }

    // Adds the counts of another tally, without those by minutes.
    pub(crate) fn add(&mut self, other: &Tally) {
        add(&mut self.plans, other.plans);
        add(&mut self.none, other.none);
        add(&mut self.limit_one, other.limit_one);
        add(&mut self.tied, other.tied);
        add(&mut self.idle, other.idle);
        add(&mut self.differences, other.differences);
        add(&mut self.changed, other.changed);
        add(&mut self.wholly_quiet, other.wholly_quiet);
        add(&mut self.behind_span, other.behind_span);
    }

    // Prints how many plans were found at each number of minutes at which some were.
    fn print_found<W: Write>(&self, to: &mut W) -> io::Result<()> {
        for (minutes, count) in self.found.iter().enumerate() {
            if 0 < *count {
                print(
                    to,
                    words_page(b", # found at # min", &[*count, minutes as u64]),
                )?;
            }
        }
        Ok(())
    }

    // Prints a tally, with words for its other counts.
    pub(crate) fn print<W: Write>(&self, to: &mut W, words: &[u8]) -> io::Result<()> {
        print(to, words_page(b"  # plans", &[self.plans]))?;
        self.print_found(to)?;
        let counts = [
            self.none,
            self.limit_one,
            self.tied,
            self.idle,
            self.differences,
            self.changed,
        ];
        print(to, words_page(words, &counts))
    }

    // Prints what is counted of plans with quiet spans alone.
    pub(crate) fn print_quiet<W: Write>(&self, to: &mut W) -> io::Result<()> {
        print(
            to,
            words_page(
                b"  # with an engine wholly quiet, # found sooner just behind a span\n",
                &[self.wholly_quiet, self.behind_span],
            ),
        )
    }
}
