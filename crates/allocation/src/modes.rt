// Fixed and shortest.
ghost use Rattle.std.specs.Prelude.{◌≡◌, ◌*◌, length};
ghost use Rattle.planning.specs.ByValue.{Usable, plan_in};
ghost use Rattle.planning.specs.Modes.{search_at, bisect as bisected, shortest as shortest_of, planned};
ghost use Rattle.allocation.specs.Ends.{Kept, Ends, Finds, Answers, AnswersFound, answered};

use crate::accepted::Accepted;
use crate::capacity;
use planning::{Answer, MOST_CELLS, Mode, Outcome, Plan};
use search::{Ended, Task, search};

// The answer of a search for that many minutes.
fn answer_of(ended: Ended, minutes: u16) -> Answer
    ensures { result ≡ answered ended minutes }
{
    Answer {
        outcome: ended.outcome,
        minutes: u64::from(minutes),
        tries: u64::from(ended.tries),
    }
}

// The search of a plan for that many minutes. One that passed the checks is never out of the search's range. By itself: a method's proof
// does not cover slices of an array beside the table that it was lent.
fn search_in(plan: &Plan, minutes: u16, table: &mut [u64]) -> Ended
    requires usable { Usable plan.now }
    requires cells { length table.old ≡ plan.now.deliveries.count * plan.now.engines.count }
    ensures { Ends (search_at (plan_in plan.now) minutes) table.old result table.new }
{
    let capacities = capacity::capacities(&plan.engines, minutes);
    let task = Task {
        capacities: &capacities[..plan.engines.count],
        energies: &plan.deliveries.energy[..plan.deliveries.count],
        limits: &plan.deliveries.limit[..plan.deliveries.count],
        allowance: plan.allowance,
    };
    search(task, table).unwrap()
}

impl<'a> Accepted<'a> {
    // The answer to a plan; found writes the table.
    pub(crate) fn answer(&mut self) -> Answer
        ensures kept { Kept self.old self.new }
        ensures answers { Answers (planned (plan_in self.old.plan)) self.old.table.now result self.new.table.now }
    {
        match self.plan.mode {
            Mode::Fixed => {
                let minutes = self.plan.minutes as u16;
                answer_of(self.search_at(minutes), minutes)
            }
            Mode::Shortest => self.shortest(),
        }
    }

    // The shortest time. Probes write a scratch table, which is as long as the lent one, and found is copied.
    fn shortest(&mut self) -> Answer
        ensures kept { Kept self.old self.new }
        ensures answers { Answers (shortest_of (plan_in self.old.plan)) self.old.table.now result self.new.table.now }
    {
        let mut scratch = [0u64; MOST_CELLS];
        let mut probes = Accepted {
            plan: self.plan,
            table: &mut scratch[..self.table.len()],
        };
        let minutes = self.plan.minutes as u16;
        let ended = probes.search_at(minutes);
        if ended.outcome != Outcome::Found {
            return answer_of(ended, minutes);
        }
        let (answer, found) = probes.bisect(ended);
        if answer.outcome == Outcome::Found {
            planning::copy(found, self.table);
        }
        answer
    }

    // The bisection between 0 and the plan's minutes, whose search found and left that table. Hands the table back: on found it holds the one of
    // the time answered.
    fn bisect(mut self, mut best: Ended) -> (Answer, &'a mut [u64])
        requires { Finds (search_at (plan_in self.plan) self.plan.minutes) best self.table.now }
        ensures cells { length result.1.now ≡ length self.entry.table.now }
        ensures answers { AnswersFound (bisected self.entry.plan.minutes (plan_in self.entry.plan) 0 self.entry.plan.minutes) result.0 result.1.now }
    {
        let mut low = 0;
        let mut high = self.plan.minutes as u16;
        while 1 < high - low {
            let middle = (low + high) / 2;
            let ended = self.search_at(middle);
            match ended.outcome {
                Outcome::Found => {
                    high = middle;
                    best = ended;
                }
                Outcome::None => low = middle,
                Outcome::Stopped => return (answer_of(ended, middle), self.table),
            }
        }
        (answer_of(best, high), self.table)
    }

    // The search for that many minutes. It answers without them: they are counted in 16 bits here, and an answer has them in 64.
    fn search_at(&mut self, minutes: u16) -> Ended
        ensures kept { Kept self.old self.new }
        ensures ends { Ends (search_at (plan_in self.old.plan) minutes) self.old.table.now result self.new.table.now }
    {
        search_in(&self.plan, minutes, self.table)
    }
}
