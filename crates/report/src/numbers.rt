// Lists of numbers put into an output, and compared with one number.
ghost use Rattle.std.specs.Prelude.{◌≡◌};
ghost use Rattle.lines.specs.Putting.{Puts};
ghost use Rattle.report.specs.Numbers.{run_texts, number_texts, other_count};

use lines::{Output, WriteError};

// A number behind a space, and how often it stands in a row where that is more than once.
fn write_run(n: u64, times: u64, out: &mut Output<'_>) -> Result<(), WriteError>
    ensures { Puts (run_texts n times) out.old result out.new }
{
    out.write_bytes(b" ")?;
    if times <= 1 {
        out.write_number(n, b"")
    } else {
        out.write_number(n, b"*")?;
        out.write_number(times, b"")
    }
}

// Puts the numbers of a list, each behind a space; one that stands k times in a row, k above 1, once as n*k.
// A run ends where the rest begins with another number. Not by `chunk_by`: tried, and where an error ends the loop nothing is known of what the
// parts before it make up.
pub(crate) fn write_numbers(list: &[u64], out: &mut Output<'_>) -> Result<(), WriteError>
    ensures { Puts (number_texts list.now) out.old result out.new }
{
    let mut times: u64 = 0;
    for (i, n) in list.iter().enumerate() {
        times += 1;
        if !list[i + 1..].starts_with(&[*n]) {
            write_run(*n, times, out)?;
            times = 0;
        }
    }
    Ok(())
}

// How many numbers of a list are other than one.
pub fn others(list: &[u64], n: u64) -> usize
    ensures { result ≡ other_count n list.now }
{
    list.iter().filter(|m| **m != n).count()
}
