// The fields of a record's text, and their values.
ghost use Rattle.std.specs.Prelude.{◌≡◌, ◌∷◌, ◌++◌, ◌≤◌, ◌<◌, length, drop};
ghost use Rattle.std.specs.Iterator.{YieldsFirst, item_count};
ghost use Rattle.csv_fields.specs.Promises.{EndsField, HasForm, HandsPart, Undoes};
ghost use Rattle.csv_fields.specs.Undoubling.{undoubled};

use crate::reader::field_read;
use crate::scans::find_outside;
use crate::{FieldForm, FieldSpan, UndoError};

// The raw field that begins at a place of a record's text: up to the next comma outside quotes.
pub fn field_at(text: &[u8], from: usize) -> FieldSpan
    ensures { EndsField text.now from result }
{
    let end = find_outside(text, from, 0x2C);
    FieldSpan {
        end,
        more: end < text.len(),
    }
}

// What a raw field is, if it is one of the grammar: read as a file of its own, it ends with that file.
pub fn form_of(raw: &[u8]) -> Option<FieldForm>
    ensures { HasForm raw.now result }
{
    let Some(read) = field_read(raw, 0) else {
        return None;
    };
    if read.end < raw.len() {
        None
    } else {
        Some(read.form)
    }
}

// The value of a field that holds no doubled quote: that part of the caller's slice. Of any other raw field what stands between its
// first and last byte where it begins with a quote, and else all of it.
pub fn part_of(raw: &[u8]) -> &[u8]
    ensures { HandsPart raw.now result.now }
{
    match raw {
        [0x22, inside @ .., _] => inside,
        _ => raw,
    }
}

// What is left inside a field behind one of its bytes: a quote stands there with the byte behind it.
#[tactic(auto, using(crate::specs::Laws::Undoubling::pair, crate::specs::Laws::Undoubling::alone))]
fn left_behind(b: u8, behind: &[u8]) -> &[u8]
    ensures { undoubled (b ∷ behind.now) ≡ b ∷ undoubled result.now }
{
    if b == 0x22 && !behind.is_empty() {
        &behind[1..]
    } else {
        behind
    }
}

// The bytes of a value, by what is left inside its field.
#[derive(Drop)]
struct Undoubled<'a>(&'a [u8]);

impl Iterator for Undoubled<'_> {
    type Item = u8;

    ghost next_gives = { YieldsFirst (λ s. undoubled s.0.now) };

    ghost remaining = { item_count (λ s. undoubled s.0.now) };

    #[tactic(auto, using(crate::specs::Laws::Undoubling::nothing_left))]
    fn next(&mut self) -> Option<u8> {
        let (&b, behind) = self.0.split_first()?;
        self.0 = left_behind(b, behind);
        Some(b)
    }
}

// How long a value is, by what stands inside its field.
#[tactic(auto, using(crate::specs::Laws::Undoubling::no_longer))]
fn undoubled_length(inside: &[u8]) -> usize
    ensures { result ≡ length (undoubled inside.now) }
{
    Undoubled(inside).count()
}

// Copies a value to the front of a buffer in which it fits.
fn copy_undoubled(inside: &[u8], out: &mut [u8])
    requires { length (undoubled inside.now) ≤ length out.old }
    ensures { out.new
        ≡ undoubled inside.now ++ drop (length (undoubled inside.now)) out.old }
{
    // tried: `zip` with `out.iter_mut()`; of what is lent through an adapter of it nothing is known behind the loop
    for (k, b) in Undoubled(inside).enumerate() {
        out[k] = b;
    }
}

// The value of any field, written to the front of a lent buffer, and its length. Where it does not fit, or the text is no field, the buffer
// is kept.
pub fn undo(raw: &[u8], out: &mut [u8]) -> Result<usize, UndoError>
    ensures { Undoes raw.now out.old result out.new }
{
    form_of(raw).ok_or(UndoError::Broken)?;
    let inside = part_of(raw);
    let n = undoubled_length(inside);
    if out.len() < n {
        return Err(UndoError::TooLong);
    }
    copy_undoubled(inside, out);
    Ok(n)
}
