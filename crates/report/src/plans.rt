// The lists of a plan put into an output, by their names.
ghost use Rattle.std.specs.Prelude.{◌≡◌, ◌∷◌};
ghost use Rattle.lines.specs.Putting.{plain, Puts};
ghost use Rattle.report.specs.Numbers.{number_texts};
ghost use Rattle.report.specs.Plans.{plan_texts};

use crate::words::write_list;
use lines::{Output, WriteError};
use planning::PlanLists;

// Puts a mark, and behind it words and the numbers of a list.
fn write_marked(
    mark: &[u8],
    words: &[u8],
    list: &[u64],
    out: &mut Output<'_>,
) -> Result<(), WriteError>
    ensures { Puts (plain mark.now ∷ plain words.now ∷ number_texts list.now) out.old result out.new }
{
    out.write_bytes(mark)?;
    write_list(words, list, out)
}

// Puts the lists of a plan, each behind its name, with a mark between them.
pub(crate) fn write_lists(
    plan: PlanLists,
    mark: &[u8],
    out: &mut Output<'_>,
) -> Result<(), WriteError>
    ensures { Puts (plan_texts plan.entry mark.now) out.old result out.new }
{
    write_list(b"watts", plan.watts, out)?;
    write_marked(mark, b"fuels", plan.fuels, out)?;
    write_marked(mark, b"energies", plan.energies, out)?;
    write_marked(mark, b"limits", plan.limits, out)?;
    write_marked(mark, b"quiet", plan.quiet, out)
}
