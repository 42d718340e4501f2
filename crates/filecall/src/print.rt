// The planner's print: its lines put into an output one after the other.
ghost use Rattle.std.specs.Prelude.{◌≡◌, [], ◌∷◌, ◌*◌, ◌<◌, length};
ghost use Rattle.lines.specs.Lines.{PutLines};
ghost use Rattle.planning.specs.Sum.{positives};
ghost use Rattle.planning.specs.Tables.{piece_in, at as entry_at};
ghost use Rattle.planfile.specs.Numerals.{decimal};
ghost use Rattle.planfile.specs.Print.{line_of, row_lines, piece_lines};
ghost use Rattle.planfile.specs.Promises.{RefusalWritten};
ghost use Rattle.filecall.specs.Printing.{print_lines};

use lines::{Output, WriteError};
use planning::{Answer, Outcome, Refusal};
use planreader::Name;

// The line of a piece. Its word needs no quotes, and is put as it is; the comma is a text of its own, as in every line that `PutLines` tells of.
fn write_piece(
    delivery: &[u8],
    engine: &[u8],
    piece: u64,
    out: &mut Output<'_>,
) -> Result<(), WriteError>
    ensures { PutLines (line_of delivery.now engine.now (decimal piece) ∷ []) out.old result out.new }
{
    out.write_bytes(b"piece")?;
    out.write_bytes(b",")?;
    out.write_field(delivery, b",")?;
    out.write_field(engine, b",")?;
    out.write_number(piece, b"\r\n")
}

// The lines of a delivery: one for each of its pieces above 0, by the names of the engines.
fn write_row(
    delivery: &[u8],
    engines: &[Name],
    row: &[u64],
    out: &mut Output<'_>,
) -> Result<(), WriteError>
    requires { length row.now ≡ length engines.now }
    ensures { PutLines (row_lines delivery.now engines.now (entry_at row.now)) out.old result out.new }
{
    for (engine, piece) in engines.iter().zip(row) {
        if 0 < *piece {
            write_piece(delivery, engine.bytes(), *piece, out)?;
        }
    }
    Ok(())
}

// The lines of all deliveries, of which each has a row of the pieces.
fn write_rows(
    deliveries: &[Name],
    engines: &[Name],
    pieces: &[u64],
    out: &mut Output<'_>,
) -> Result<(), WriteError>
    requires { (0 < length engines.now) × (length pieces.now ≡ length deliveries.now * length engines.now) }
    ensures { PutLines (piece_lines deliveries.now engines.now (piece_in (length engines.now) pieces.now)) out.old result out.new }
{
    for (delivery, row) in deliveries.iter().zip(pieces.chunks_exact(engines.len())) {
        write_row(delivery.bytes(), engines, row, out)?;
    }
    Ok(())
}

// How many pieces are above 0.
fn count_pieces(pieces: &[u64]) -> u64
    ensures { result ≡ positives (length pieces.now) (entry_at pieces.now) }
{
    pieces.iter().filter(|piece| 0 < **piece).count() as u64
}

// Line 1, by its word and its three numbers: minutes, tries and pieces of an answer, or number, record and 0 of a refusal.
fn write_answer(
    word: &[u8],
    first: u64,
    second: u64,
    third: u64,
    out: &mut Output<'_>,
) -> Result<(), WriteError>
    ensures { PutLines ((word.now ∷ decimal first ∷ decimal second ∷ decimal third ∷ []) ∷ []) out.old result out.new }
{
    out.write_field(word, b",")?;
    out.write_number(first, b",")?;
    out.write_number(second, b",")?;
    out.write_number(third, b"\r\n")
}

// The whole print.
pub(crate) fn write(
    deliveries: &[Name],
    engines: &[Name],
    answer: Answer,
    pieces: &[u64],
    out: &mut Output<'_>,
) -> Result<(), WriteError>
    requires { (0 < length engines.now) × (length pieces.now ≡ length deliveries.now * length engines.now) }
    ensures { PutLines (print_lines answer deliveries.now engines.now pieces.now) out.old result out.new }
{
    match answer.outcome {
        Outcome::Found => {
            let count = count_pieces(pieces);
            write_answer(b"found", answer.minutes, answer.tries, count, out)?;
            write_rows(deliveries, engines, pieces, out)
        }
        Outcome::None => write_answer(b"none", answer.minutes, answer.tries, 0, out),
        Outcome::Stopped => write_answer(b"stopped", answer.minutes, answer.tries, 0, out),
    }
}

// No line of a refusal is longer: its word, two numbers, 0, three commas, CR and LF.
const LONGEST_REFUSAL: usize = 13 + 2 * lines::MOST_DIGITS;

// Writes the line that the program prints for a refusal at the front of an output, where it fits; answers its length, or 0. That is how much
// of the output a caller prints, so it is no `Option`. The line is made aside, where every one fits, so that nothing is written where it does
// not fit.
pub fn write_refusal(refusal: Refusal, out: &mut [u8]) -> usize
    ensures { RefusalWritten refusal out.old result out.new }
{
    let number = u64::from(refusal.fault);
    let record = refusal.place;
    let mut line = [0u8; LONGEST_REFUSAL];
    let mut made = Output::new(&mut line);
    write_answer(b"refused", number, record, 0, &mut made).unwrap();
    let n = made.len();
    let mut lent = Output::new(out);
    match lent.write_bytes(&line[..n]) {
        Ok(()) => n,
        Err(_) => 0,
    }
}
