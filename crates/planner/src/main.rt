// Plans the file on standard input and prints the answer, or the refusal, on standard output.
#![tactic(auto)]

ghost use Rattle.std.specs.Prelude.{◌≤◌, length, take, IfOk};
ghost use Rattle.planfile.specs.Promises.{ProgramPrints};

use planfile::{LONGEST_PRINT, MOST_BYTES};
use planning::MOST_ENGINES;
use std::io::{self, Read, Write};

// Reads to the end of the input, or until the buffer is full, and answers how many bytes that are. A read that a signal interrupts is tried
// again, which report's `read_full` does not; half a file may be a valid plan, so any other failure is told apart from the end. A proved loop
// has to end: it counts up to a number that no run comes to.
fn read_input<R: Read>(from: &mut R, buffer: &mut [u8]) -> io::Result<usize>
    ensures { IfOk result (λ n. n ≤ length buffer.new) }
{
    let mut filled = 0;
    for _ in 0..u64::MAX {
        if filled == buffer.len() {
            return Ok(filled);
        }
        match from.read(&mut buffer[filled..]) {
            Ok(0) => return Ok(filled),
            Ok(got) => filled += got,
            Err(error) if error.kind() == io::ErrorKind::Interrupted => {}
            Err(_) => break,
        }
    }
    Err(io::Error::other("planner: read"))
}

// Plans a file, prints the answer or the refusal into the output, and answers the length of the print. With these tables and this much
// output it is document 01's print of the file, and never `refused,9`.
fn print_of(file: &[u8], output: &mut [u8; LONGEST_PRINT]) -> usize
    ensures print { ProgramPrints file.now (take result output.new) }
    ensures within { result ≤ length output.new }
{
    // MOST_CELLS, by the number itself: the form of the change that set it asks for that
    let mut table = [0u64; 444];
    let mut spare = [0u64; MOST_ENGINES];
    match filecall::plan_file(file, &mut table, &mut spare, output) {
        Ok((_, n)) => n,
        Err(refusal) => filecall::write_refusal(refusal, output),
    }
}

// Plans a file and prints.
fn plan<W: Write>(file: &[u8], to: &mut W) -> io::Result<()> {
    let mut output = [0u8; LONGEST_PRINT];
    let n = print_of(file, &mut output);
    to.write_all(&output[..n])
}

fn main(rt: HostRuntime) -> io::Result<()> {
    // one byte more than a file may have, which is enough to refuse it by 1; an array, so that a plan needs no memory that may be missing
    let mut file = [0u8; MOST_BYTES + 1];
    let n = read_input(&mut rt.stdin(), &mut file)?;
    plan(&file[..n], &mut rt.stdout())
}
