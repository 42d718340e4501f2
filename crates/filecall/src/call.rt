// A plan that was read is answered in the lists lent where every print fits there, and otherwise aside. That it can be planned is asked of three
// functions, each called by the one before: a type that carried it would be made for that chain alone.
ghost use Rattle.std.specs.Prelude.{◌≡◌, ◌*◌, ◌≤◌, length};
ghost use Rattle.planfile.specs.Print.{longest_print};
ghost use Rattle.planreader.specs.Plans.{UsablePlan, plan_by};
ghost use Rattle.filecall.specs.HandOver.{Answers, lent_lists, HandedOver};

use crate::print;
use lines::Output;
use planfile::LONGEST_PRINT;
use planning::{Answer, Fault, MOST_CELLS, MOST_ENGINES, PlanLists, Refusal};
use planreader::FilePlan;

// The plan answered, on tables of its own lengths. A plan that was read passes every check.
fn planned(plan: &FilePlan, pieces: &mut [u64], spares: &mut [u64]) -> Answer
    requires { UsablePlan plan.now
        × (length pieces.old ≡ plan.now.deliveries.count * plan.now.engines.count)
        × (length spares.old ≡ plan.now.engines.count) }
    ensures { Answers plan.now result pieces.old spares.old pieces.new spares.new }
{
    let engines = plan.engines.count;
    let deliveries = plan.deliveries.count;
    let lists = PlanLists {
        mode: plan.mode,
        minutes: plan.minutes,
        allowance: plan.allowance,
        watts: &plan.engines.firsts[..engines],
        fuels: &plan.engines.seconds[..engines],
        energies: &plan.deliveries.firsts[..deliveries],
        limits: &plan.deliveries.seconds[..deliveries],
        quiet: plan.quiet[..plan.spans].as_flattened(),
    };
    allocation::allocate(lists, pieces, spares).unwrap()
}

// The plan answered in the lists lent, where the output has space for every print.
pub(crate) fn in_place(
    plan: &FilePlan,
    table: &mut [u64; MOST_CELLS],
    spare: &mut [u64; MOST_ENGINES],
    output: &mut [u8],
) -> (Answer, usize)
    requires { UsablePlan plan.now × (longest_print ≤ length output.old) }
    ensures { HandedOver (plan_by plan.now) (Ok result)
        (lent_lists table.old spare.old output.old)
        (lent_lists table.new spare.new output.new) }
{
    let pieces = &mut table[..plan.deliveries.count * plan.engines.count];
    let answer = planned(plan, pieces, &mut spare[..plan.engines.count]);
    let deliveries = &plan.deliveries.names[..plan.deliveries.count];
    let engines = &plan.engines.names[..plan.engines.count];
    let mut out = Output::new(output);
    // never an error: every print fits there
    print::write(deliveries, engines, answer, pieces, &mut out).unwrap();
    (answer, out.len())
}

// The plan answered in lists of the call's own, which are handed over where the print fits: so 9 is decided before anything lent is written.
pub(crate) fn aside(
    plan: &FilePlan,
    table: &mut [u64; MOST_CELLS],
    spare: &mut [u64; MOST_ENGINES],
    output: &mut [u8],
) -> Result<(Answer, usize), Refusal>
    requires { UsablePlan plan.now }
    ensures { HandedOver (plan_by plan.now) result
        (lent_lists table.old spare.old output.old)
        (lent_lists table.new spare.new output.new) }
{
    let mut own_table = *table;
    let mut own_spare = *spare;
    let mut made = [0u8; LONGEST_PRINT];
    let (answer, n) = in_place(plan, &mut own_table, &mut own_spare, &mut made);
    let mut out = Output::new(output);
    out.write_bytes(&made[..n]).map_err(|_| Fault::Space.at(0))?;
    *table = own_table;
    *spare = own_spare;
    Ok((answer, n))
}
