// Words with numbers among them put into an output. Not by `write!`, which is no plainer here: these contracts say every byte, and a text that
// does not fit is left out whole.
ghost use Rattle.std.specs.Prelude.{◌≡◌, [], ◌∷◌};
ghost use Rattle.lines.specs.Putting.{plain, Puts};
ghost use Rattle.report.specs.Numbers.{number_texts};
ghost use Rattle.report.specs.Words.{word_texts};

use crate::numbers::write_numbers;
use lines::{Output, WriteError};

// The byte that stands for a number.
const NUMBER_SIGN: u8 = b'#';

// Puts words with the next number of a list in the place of each `#`; a `#` for which no number is left stays.
pub(crate) fn write_words(
    words: &[u8],
    numbers: &[u64],
    out: &mut Output<'_>,
) -> Result<(), WriteError>
    ensures { Puts (word_texts words.now numbers.now) out.old result out.new }
{
    let mut left = numbers;
    for b in words {
        match left.split_first() {
            Some((n, rest)) if *b == NUMBER_SIGN => {
                out.write_number(*n, b"")?;
                left = rest;
            }
            _ => out.write_bytes(&[*b])?,
        }
    }
    Ok(())
}

// Puts words, and behind them the numbers of a list.
pub(crate) fn write_list(words: &[u8], list: &[u64], out: &mut Output<'_>) -> Result<(), WriteError>
    ensures { Puts (plain words.now ∷ number_texts list.now) out.old result out.new }
{
    out.write_bytes(words)?;
    write_numbers(list, out)
}
