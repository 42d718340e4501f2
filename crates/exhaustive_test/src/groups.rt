// Groups of plans: every plan of a shape, or every so many-th of them, is checked and counted.
use crate::comparison::{Answered, Wrong};
use crate::plans::Shape;
use crate::tally::Tally;
use planning::{Mode, PlanLists};
use report::{Page, mode_name, plan_page, print, words_page};
use std::io::{self, Write};

// One plan in `step` of a shape, in a mode with its MINUTES.
#[derive(Clone, Copy)]
pub(crate) struct Group {
    mode: Mode,
    minutes: u64,
    shape: Shape,
    step: u64,
}

// The most differences of a group that are printed.
const MOST_SHOWN: u64 = 10;

// What is printed of an allocation's answer on which the planners differ.
fn difference_page(plan: PlanLists, answer: &Answered) -> Page {
    match answer.minutes {
        Ok(Some(minutes)) => words_page(
            b"; in # min answered #: a difference\n",
            &[plan.minutes, minutes],
        ),
        Ok(None) => words_page(b"; in # min answered none: a difference\n", &[plan.minutes]),
        Err(Wrong) => words_page(
            b"; in # min answered wrongly: a difference\n",
            &[plan.minutes],
        ),
    }
}

// Prints a plan on which the planners differ, with the allocation's answer.
fn print_difference<W: Write>(to: &mut W, plan: PlanLists, answer: &Answered) -> io::Result<()> {
    to.write_all(mode_name(plan.mode))?;
    to.write_all(b": ")?;
    print(to, plan_page(plan, b"; "))?;
    print(to, difference_page(plan, answer))
}

// Answers a plan both ways, compares, and counts it.
fn check_plan<W: Write>(to: &mut W, plan: PlanLists, tally: &mut Tally) -> io::Result<()> {
    let answer = Answered::to(plan);
    let agreed = answer.is_right(plan);
    if !agreed && tally.differences < MOST_SHOWN {
        print_difference(to, plan, &answer)?;
    }
    tally.count(plan, &answer, agreed);
    Ok(())
}

impl Group {
    // Plans under `fixed`, of MINUTES that leave every second engine short of fuel.
    pub(crate) fn fixed(shape: Shape, step: u64) -> Group {
        Group {
            mode: Mode::Fixed,
            minutes: 4,
            shape,
            step,
        }
    }

    // Plans under `shortest`, of at most so many MINUTES.
    pub(crate) fn shortest(minutes: u64, shape: Shape, step: u64) -> Group {
        Group {
            mode: Mode::Shortest,
            minutes,
            shape,
            step,
        }
    }

    // Checks the plans of the group. Not by `step_by`, which takes one plan more where the step does not divide their number.
    fn check_plans<W: Write>(&self, to: &mut W) -> io::Result<Tally> {
        let mut tally = Tally::default();
        for i in 0..self.shape.plans().checked_div(self.step).unwrap_or(0) {
            let numbers = self.shape.numbers(i.saturating_mul(self.step));
            check_plan(to, numbers.plan(self.mode, self.minutes), &mut tally)?;
        }
        Ok(tally)
    }

    // Prints what the plans of the group are.
    fn print<W: Write>(&self, to: &mut W) -> io::Result<()> {
        let shape = self.shape;
        let numbers = [
            self.minutes,
            u64::from(shape.engines),
            u64::from(shape.size),
            u64::from(shape.deliveries),
            u64::from(shape.energy),
            u64::from(shape.limit),
            self.step,
        ];
        to.write_all(mode_name(self.mode))?;
        print(
            to,
            words_page(
                b", minutes #; engines #, sizes 0 to #; deliveries #, energies 1 to #, limits 1 to #; one plan in #\n",
                &numbers,
            ),
        )
    }

    // Checks the plans of the group, prints what was counted, and answers it.
    pub(crate) fn check<W: Write>(&self, to: &mut W) -> io::Result<Tally> {
        let tally = self.check_plans(to)?;
        self.print(to)?;
        tally.print(
            to,
            b", # none; # with a limit 1, # with deliveries alike, # with a capacity 0; # differences, # numbers changed behind the lent lists\n",
        )?;
        if 1 < self.shape.ways {
            tally.print_quiet(to)?;
        }
        Ok(tally)
    }
}
