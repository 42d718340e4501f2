// Standard input read whole, and pages written, by what the test programs share.
ghost use Rattle.std.specs.Prelude.{ℕ, ◌<◌, ◌≤◌, length, take, IfOk, OnErr, OnOk};
ghost use Rattle.std.specs.Io.KnownBytes.{Appends, Consumes, IsAtEnd};
ghost use Rattle.report.specs.Page.{page_text};

use crate::page::Page;
use std::io::{self, Read, Write};

// Reads to the end of the input, or until the buffer is full, and answers how many bytes it put there. What was read before an error stands
// at the buffer's front.
pub fn read_full<R: Read>(from: &mut R, buffer: &mut [u8]) -> io::Result<usize>
    ensures within { IfOk result (λ n. n ≤ length buffer.new) }
    ensures bytes { IfOk result (λ n. Consumes (R.remaining from.old) (R.remaining from.new) (take n buffer.new)) }
    ensures whole { IfOk result (λ n. n < length buffer.new → IsAtEnd (R.remaining from.new)) }
    ensures broken { OnErr result ((n : ℕ) × (n < length buffer.new)
        × Consumes (R.remaining from.old) (R.remaining from.new) (take n buffer.new)) }
{
    let mut filled = 0;
    while filled < buffer.len() {
        let got = from.read(&mut buffer[filled..])?;
        if got == 0 {
            break;
        }
        filled += got;
    }
    Ok(filled)
}

// Writes what is on a page; nothing where a text was left out.
pub fn print<W: Write>(to: &mut W, page: Page) -> io::Result<()>
    ensures { OnOk result (Appends (W.contents to.old) (W.contents to.new) (page_text page.next page.bytes)) }
{
    to.write_all(page.written())
}
