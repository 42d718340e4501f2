// Reading CSV by RFC 4180: where records and fields end, and the values of fields. It knows nothing of what the fields mean. What RFC 4180
// says stands in rfc4180; specs/ has what these functions return in its terms.
#![tactic(auto)]

mod fields;
mod reader;
mod records;
mod scans;

pub use fields::{field_at, form_of, part_of, undo};
pub use reader::field_read;
pub use records::record_at;

// Where the text of a record ends, and where the next record begins. A record that no CR LF ends reaches to the end of the file. No Option
// stands for the next record: a reader goes on there whatever ended this one, and a CR LF at the very end has no record behind it either. No
// FieldEnd stands for what ended it, as no comma does.
#[derive(Clone, Copy, Debug, PartialEq, Eq)]
pub struct RecordSpan {
    pub end: usize,
    pub next: usize,
    pub ended: bool,
}

// Where a raw field ends, and whether a comma stands there and a further field behind it. No Option stands for that field: its place is
// always the one behind the end. No FieldEnd stands for what ends it: where no comma does, it is the text, whatever that stands in.
#[derive(Clone, Copy, Debug, PartialEq, Eq)]
pub struct FieldSpan {
    pub end: usize,
    pub more: bool,
}

// What ends a field in a file: a comma, behind which a further field of the record begins, CR LF, behind which the next record does, or the
// end of the file.
#[derive(Clone, Copy, Debug, PartialEq, Eq)]
pub enum FieldEnd {
    Comma,
    RecordEnd,
    FileEnd,
}

// A field of the grammar that was read where it begins in a file: where it ends, where what follows begins, what ends it, and what it is.
// The second follows from the others, and stays, as every reader goes on there.
#[derive(Clone, Copy, Debug, PartialEq, Eq)]
pub struct FieldRead {
    pub end: usize,
    pub next: usize,
    pub ended_by: FieldEnd,
    pub form: FieldForm,
}

// What a field of the grammar is: one whose value is a part of it, or one with doubled quotes, to be undone.
#[derive(Clone, Copy, Debug, PartialEq, Eq)]
pub enum FieldForm {
    Part,
    Doubled,
}

// Why a field's value was not written to a lent buffer: it does not fit there, or the text is no field.
#[derive(Clone, Copy, Debug, PartialEq, Eq)]
pub enum UndoError {
    TooLong,
    Broken,
}
