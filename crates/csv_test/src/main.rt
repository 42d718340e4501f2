// Runs the crate csv_fields over the examples on standard input: RFC 4180's own, records that break its grammar, and values to write. Each
// example is a letter, R for a file to read and W for a value to write, the lengths of its title and of its bytes as decimal numbers with a
// byte behind each, its title, and its bytes. Where standard input cannot be read or standard output cannot be written, that error ends it.
#![tactic(auto)]

ghost use Rattle.std.specs.Prelude.{◌<◌, length, IfSome};

use csv_fields::{FieldEnd, FieldForm, FieldRead, UndoError};
use lines::{Output, WriteError};
use report::{Scanner, print, read_full, shown_page, written};
use std::io::{self, Write};

// The value of a field with doubled quotes, with so much space to undo them in; none where that is more than there is.
fn show_undone<W: Write>(to: &mut W, raw: &[u8], room: usize) -> io::Result<()> {
    let mut space = [0u8; 4096];
    match csv_fields::undo(raw, space.get_mut(..room).unwrap_or(&mut [])) {
        Ok(n) => print(to, shown_page(b" ", &space[..n], b"")),
        Err(UndoError::TooLong) => to.write_all(b" too long"),
        Err(UndoError::Broken) => to.write_all(b" broken"),
    }
}

// The value of a raw field.
fn show_value<W: Write>(to: &mut W, raw: &[u8]) -> io::Result<()> {
    match csv_fields::form_of(raw) {
        Some(FieldForm::Part) => print(to, shown_page(b" ", csv_fields::part_of(raw), b"")),
        Some(FieldForm::Doubled) => show_undone(to, raw, 4096),
        None => to.write_all(b" broken"),
    }
}

// The values of a record's fields, on a line.
fn show_record<W: Write>(to: &mut W, text: &[u8]) -> io::Result<()> {
    to.write_all(b"\nrecord")?;
    let mut from = 0;
    loop {
        let field = csv_fields::field_at(text, from);
        show_value(to, &text[from..field.end])?;
        if !field.more {
            return Ok(());
        }
        from = field.end + 1;
    }
}

// The records of a file, a line for each. A CR LF at the very end ends the last record, and none follows it.
fn show_records<W: Write>(to: &mut W, file: &[u8]) -> io::Result<()> {
    let mut from = 0;
    loop {
        let record = csv_fields::record_at(file, from);
        show_record(to, &file[from..record.end])?;
        from = record.next;
        if file.len() <= from {
            return Ok(());
        }
    }
}

// What ends a field that was read in place.
fn what_ends(field: FieldRead) -> &'static [u8] {
    match field.ended_by {
        FieldEnd::Comma => b" comma",
        FieldEnd::RecordEnd => b" record end",
        FieldEnd::FileEnd => b" end of file",
    }
}

// The raw fields of a file, read in place one after the other up to the first that is broken. A CR LF at the very end has no record behind it.
fn show_fields<W: Write>(to: &mut W, file: &[u8]) -> io::Result<()> {
    let mut from = 0;
    loop {
        let Some(field) = csv_fields::field_read(file, from) else {
            return to.write_all(b" broken");
        };
        print(
            to,
            shown_page(b" ", &file[from..field.end], what_ends(field)),
        )?;
        match field.ended_by {
            FieldEnd::Comma => from = field.next,
            FieldEnd::RecordEnd if field.next < file.len() => from = field.next,
            FieldEnd::RecordEnd | FieldEnd::FileEnd => return Ok(()),
        }
    }
}

// A file, its records, and its fields.
fn show_file<W: Write>(to: &mut W, file: &[u8]) -> io::Result<()> {
    print(to, shown_page(b"\nfile ", file, b""))?;
    show_records(to, file)?;
    to.write_all(b"\nfields")?;
    show_fields(to, file)
}

// A value of n bytes read back from what it was written as, with just enough space and with a byte less.
fn show_back<W: Write>(to: &mut W, raw: &[u8], n: usize) -> io::Result<()> {
    show_undone(to, raw, n)?;
    if 0 < n {
        to.write_all(b", with a byte less")?;
        show_undone(to, raw, n - 1)?;
    }
    Ok(())
}

// What a value is written as between dots, and the value read back from there.
fn show_written<W: Write>(to: &mut W, value: &[u8]) -> io::Result<()> {
    let mut output = [b'.'; 24];
    let mut out = Output::new(&mut output[2..]);
    let wrote = out.write_field(value, b"");
    let n = out.len();
    print(to, shown_page(b"\nvalue ", value, b""))?;
    print(to, shown_page(b"\noutput ", &output, b"\nread back"))?;
    match wrote {
        Ok(()) => show_back(to, written(&output[2..], Ok(n)), value.len()),
        Err(WriteError::Refused) => to.write_all(b" nothing: refused"),
        Err(WriteError::TooLong) => to.write_all(b" nothing: too long"),
    }
}

// A file to read, or a value to write.
#[derive(Clone, Copy)]
enum Example<'a> {
    File(&'a [u8]),
    Value(&'a [u8]),
}

// An example and its title.
#[derive(Clone, Copy)]
struct Titled<'a> {
    title: &'a [u8],
    example: Example<'a>,
}

// An example: its title, and what comes of it.
fn show_example<W: Write>(to: &mut W, titled: Titled<'_>) -> io::Result<()> {
    to.write_all(titled.title)?;
    match titled.example {
        Example::File(file) => show_file(to, file)?,
        Example::Value(value) => show_written(to, value)?,
    }
    to.write_all(b"\n")
}

// The next example of an input; `None` where it is cut off.
fn next_example<'a>(input: &mut Scanner<'a>) -> Option<Titled<'a>>
    ensures { IfSome result (λ titled. length input.new.rest.now < length input.old.rest.now) }
{
    let letter = input.rest.split_off_first()?;
    let titled = input.number(4096) as usize;
    let sized = input.number(4096) as usize;
    input.rest.split_off_first()?;
    let title = input.rest.split_off(..titled)?;
    let bytes = input.rest.split_off(..sized)?;
    let example = match letter {
        b'R' => Example::File(bytes),
        _ => Example::Value(bytes),
    };
    Some(Titled { title, example })
}

// The examples of an input, one after the other. filecall_test has this loop too: one in `report` would take two closures and could say
// nothing of what they print.
fn show_examples<W: Write>(to: &mut W, input: &[u8]) -> io::Result<()> {
    let mut input = Scanner { rest: input };
    while !input.rest.is_empty() {
        let Some(titled) = next_example(&mut input) else {
            return to.write_all(b"cut off\n");
        };
        show_example(to, titled)?;
    }
    Ok(())
}

fn main(rt: HostRuntime) -> io::Result<()> {
    // larger than the examples, and fixed: a test must not end for lack of memory
    let mut input = [0u8; 65536];
    let n = read_full(&mut rt.stdin(), &mut input)?;
    show_examples(&mut rt.stdout(), &input[..n])
}
