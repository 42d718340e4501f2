// The call with a file: a plan file is read, planned and printed.
#![tactic(auto)]

mod call;
mod print;

ghost use Rattle.planfile.specs.Promises.{FilePromised};
ghost use Rattle.filecall.specs.Calls.{call_with};

use planfile::LONGEST_PRINT;
use planning::{Answer, Fault, Refusal};
pub use print::write_refusal;

// Plans the file; lent a piece table of MOST_CELLS numbers, a spare list of MOST_ENGINES, and an output for the print. Answers with the print's length.
pub fn plan_file(
    file: &[u8],
    table: &mut [u64],
    spare: &mut [u64],
    output: &mut [u8],
) -> Result<(Answer, usize), Refusal>
    ensures { FilePromised
        (call_with file.now table.old spare.old output.old)
        result table.new spare.new output.new }
{
    // Not by `?`: tried, and Rattle makes no proof behind it for a plan that holds names.
    let plan = match planreader::read(file) {
        Ok(plan) => plan,
        Err(refusal) => return Err(refusal),
    };
    let Some(table) = table.as_mut_array() else {
        return Err(Fault::Space.at(0));
    };
    let Some(spare) = spare.as_mut_array() else {
        return Err(Fault::Space.at(0));
    };
    if LONGEST_PRINT <= output.len() {
        Ok(call::in_place(&plan, table, spare, output))
    } else {
        call::aside(&plan, table, spare, output)
    }
}
