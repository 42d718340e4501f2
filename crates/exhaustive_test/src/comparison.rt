// One plan, answered by the allocation and by the exhaustive planner.
use crate::cutting::Cutting;
use crate::exhaustive::first_served;
use crate::lists::List;
use crate::tasks::{Task, capacities_of};
use planning::{Answer, Mode, Outcome, PlanLists, Refusal};
use report::others;

// What the lent lists hold before a call.
const TABLE_PATTERN: u64 = 7;

const SPARE_PATTERN: u64 = 8;

// The most parts of a watt-hour that cuttings are tried in.
const MOST_PARTS: u64 = 3;

// An answer that no plan here may have: refused, stopped, or with minutes that do not go with it.
#[derive(Clone, Copy, PartialEq, Eq)]
pub(crate) struct Wrong;

// The minutes of found, from 1 on; `None` for none in the plan's MINUTES.
fn minutes_of(answer: Result<Answer, Refusal>, minutes: u64) -> Result<Option<u64>, Wrong> {
    let answer = answer.map_err(|_| Wrong)?;
    match answer.outcome {
        Outcome::Found if 0 < answer.minutes => Ok(Some(answer.minutes)),
        Outcome::None if answer.minutes == minutes => Ok(None),
        _ => Err(Wrong),
    }
}

// The allocation's answer to a plan, by `minutes_of`, and the lists that it was lent.
#[derive(Clone, Copy)]
pub(crate) struct Answered {
    pub minutes: Result<Option<u64>, Wrong>,
    table: List,
    spare: List,
}

impl Answered {
    // Answers a plan by the allocation, over lists that are filled with patterns.
    pub(crate) fn to(plan: PlanLists) -> Answered {
        let engines = plan.watts.len();
        let mut table = List::new(TABLE_PATTERN, engines.saturating_mul(plan.energies.len()));
        let mut spare = List::new(SPARE_PATTERN, engines);
        let answer = allocation::allocate(plan, table.items_mut(), spare.items_mut());
        Answered {
            minutes: minutes_of(answer, plan.minutes),
            table,
            spare,
        }
    }

    // How many numbers behind the lent lists were changed.
    pub(crate) fn changed(&self) -> u64 {
        let in_table = others(self.table.behind(), TABLE_PATTERN);
        let in_spare = others(self.spare.behind(), SPARE_PATTERN);
        in_table.saturating_add(in_spare) as u64
    }

    // Whether nothing is changed in the lent lists and behind them.
    fn is_untouched(&self) -> bool {
        others(&self.table.numbers, TABLE_PATTERN) == 0
            && others(&self.spare.numbers, SPARE_PATTERN) == 0
    }

    // Whether each engine's spare is its capacity less its pieces.
    fn spares_right(&self, cutting: Cutting) -> bool {
        let mut spares = cutting
            .task
            .capacities
            .iter()
            .zip(self.spare.items())
            .enumerate();
        spares.all(|(engine, (capacity, spare))| spare.saturating_add(cutting.given(engine))
            == *capacity)
    }

    // Whether the lent lists hold what an answer leaves there: a cutting in watt-hours that serves and what it spares, or what they held.
    fn lists_right(&self, plan: PlanLists) -> bool {
        match self.minutes {
            Err(Wrong) => false,
            Ok(None) => self.is_untouched(),
            Ok(Some(minutes)) => {
                let capacities = capacities_of(plan, minutes);
                let cutting = Cutting {
                    task: Task::of(plan, capacities.items(), 1),
                    table: self.table.items(),
                };
                cutting.serves() && self.spares_right(cutting)
            }
        }
    }

    // Whether the exhaustive planner comes to the answer with cuttings in 1 part, in 2 parts and so on, from the first minute on that the
    // mode looks at.
    fn is_confirmed(&self, plan: PlanLists) -> bool {
        let from = match plan.mode {
            Mode::Fixed => plan.minutes,
            Mode::Shortest => 1,
        };
        (1..=MOST_PARTS).all(|parts| Ok(first_served(plan, from..=plan.minutes, parts))
            == self.minutes)
    }

    // Whether the answer and what it leaves in the lent lists are right.
    pub(crate) fn is_right(&self, plan: PlanLists) -> bool {
        self.lists_right(plan) && self.is_confirmed(plan)
    }
}
