// Reading a file field by field, each byte once. What reads a field that is not quoted is inlined into its two callers: files of many short
// fields are read in little more than half the time so.
ghost use Rattle.std.specs.Prelude.{◌≡◌, false, ◌+◌, length, drop};
ghost use Rattle.csv_fields.specs.Reader.{end_read, plain_read, quoted_read};
ghost use Rattle.csv_fields.specs.Promises.{ReadsField};
ghost use Rattle.csv_fields.specs.declared.FieldForm.TheVariants.{Part};
ghost use Rattle.csv_fields.specs.Scans.{Found};

use crate::scans::{holds, is_plain, plain_end};
use crate::{FieldEnd, FieldForm, FieldRead};
use rfc4180::{ByteClass, class_of};

// A field whose bytes end before a place, where the file ends, or a comma or CR LF stands; anything else breaks it.
#[tactic(auto, using(crate::specs::Laws::ReaderSteps::end_last, crate::specs::Laws::ReaderSteps::end_comma, crate::specs::Laws::ReaderSteps::end_crlf, crate::specs::Laws::ReaderSteps::end_cr, crate::specs::Laws::ReaderSteps::end_other))]
#[inline(always)]
fn ended(file: &[u8], end: usize, form: FieldForm) -> Option<FieldRead>
    ensures { result ≡ end_read end form (drop end file.now) }
{
    let (ended_by, next) = match file.get(end) {
        None => (FieldEnd::FileEnd, end),
        Some(&b) => match class_of(b) {
            ByteClass::Comma => (FieldEnd::Comma, end + 1),
            ByteClass::CarriageReturn if holds(file, end + 1, 0x0A) => {
                (FieldEnd::RecordEnd, end + 2)
            }
            _ => return None,
        },
    };
    Some(FieldRead {
        end,
        next,
        ended_by,
        form,
    })
}

// Where the text ends that begins at a place. Many fields are empty, and are told by the first byte alone.
#[tactic(auto, using(crate::specs::Laws::Scans::found_next, crate::specs::Laws::Scans::found_here))]
#[inline(always)]
fn text_end(file: &[u8], from: usize) -> usize
    ensures { Found file.now false from (length file.now) result }
{
    match file.get(from) {
        Some(&b) if is_plain::<false>(b) => plain_end::<false>(file, from + 1),
        _ => from,
    }
}

// A field that is not quoted: text up to what ends it.
#[tactic(auto, using(crate::specs::Laws::ReaderSteps::plain_ends))]
#[inline(always)]
fn read_plain(file: &[u8], from: usize) -> Option<FieldRead>
    ensures { result ≡ plain_read from (drop from file.now) }
{
    ended(file, text_end(file, from), FieldForm::Part)
}

// A quoted field, from the place behind its opening quote on.
#[tactic(auto, using(crate::specs::Laws::ReaderSteps::quote_class, crate::specs::Laws::ReaderSteps::class_quote, crate::specs::Laws::ReaderSteps::inside_last, crate::specs::Laws::ReaderSteps::inside_pair, crate::specs::Laws::ReaderSteps::inside_closed, crate::specs::Laws::ReaderSteps::inside_refused, crate::specs::Laws::ReaderSteps::inside_on, crate::specs::Laws::ReaderSteps::inside_plain))]
fn read_quoted(file: &[u8], from: usize) -> Option<FieldRead>
    ensures { result ≡ quoted_read Part from (drop from file.now) }
{
    let mut at = from;
    let mut form = FieldForm::Part;
    // It goes on by runs, by pairs of quotes and by bytes, so a `for` over the places does not fit. One test after the other: a match on the
    // class becomes a table of jumps, by which a file of quotes took half as long again.
    while let Some(&b) = file.get(at) {
        if b == 0x22 {
            if !holds(file, at + 1, 0x22) {
                return ended(file, at + 1, form);
            }
            form = FieldForm::Doubled;
            at += 2;
        } else if is_plain::<true>(b) {
            at = plain_end::<true>(file, at + 1);
        } else if class_of(b) == ByteClass::Refused {
            return None;
        } else {
            at += 1;
        }
    }
    None
}

// The field that begins at a place of a file, if one of the grammar stands there.
#[inline(always)]
pub fn field_read(file: &[u8], from: usize) -> Option<FieldRead>
    ensures { ReadsField file.now from result }
{
    if holds(file, from, 0x22) {
        read_quoted(file, from + 1)
    } else {
        read_plain(file, from)
    }
}
