// A record of a file cut into its fields.
ghost use Rattle.std.specs.Prelude.{◌≡◌, set};
ghost use Rattle.planreader.specs.Fields.{IsCut};

use csv_fields::{FieldEnd, FieldForm};
use planfile::MOST_NAME_BYTES;
use planning::Fault;

// Where a field stands in its record's text, and what it is.
#[derive(Clone, Copy)]
pub(crate) struct FieldPlace {
    pub start: usize,
    pub end: usize,
    pub form: FieldForm,
}

// Stores where a field stands, if it is one of the first four.
fn store(places: &mut [FieldPlace; 4], count: usize, place: FieldPlace)
    ensures { places.new ≡ set places.old count place }
{
    if count < 4 {
        places[count] = place;
    }
}

// A record that keeps RFC 4180 and has four fields, cut into them: its text in the file, and where they stand.
#[derive(Clone, Copy)]
pub(crate) struct Entry<'a> {
    pub text: &'a [u8],
    pub places: [FieldPlace; 4],
    ghost cut: { IsCut text.now places },
}

impl<'a> Entry<'a> {
    ghost use Rattle.std.specs.Prelude.{◌≡◌, List, [], ℕ, ◌≤◌, ◌<◌, length, get_or};
    ghost use Rattle.std.proofs.Math.Option.{some};
    ghost use Rattle.rfc4180.specs.Fields.{raw_fields, field_value};
    ghost use Rattle.csv_fields.specs.Spans.{inside_of};
    ghost use Rattle.planreader.specs.Parts.{CutAt};
    ghost use Rattle.planreader.specs.Fields.{NameFor};

    // Cuts the record that begins at a place of a file; behind it stands where the next one begins. 2 at the first field that breaks the grammar,
    // as what follows cannot mend it; 3 at the record's end, where its fields are not four.
    #[tactic(auto, using(crate::specs::Laws::Cuts::none_passed, crate::specs::Laws::Cuts::next_passed))]
    pub(crate) fn cut(file: &'a [u8], from: usize) -> Result<(Entry<'a>, usize), Fault>
        requires { from ≤ length file.now }
        ensures { CutAt file.now from result }
    {
        let nowhere = FieldPlace {
            start: 0,
            end: 0,
            form: FieldForm::Part,
        };
        let mut places = [nowhere; 4];
        // counted beside the loop, which goes on where the field before ended
        let mut count = 0;
        let mut at = from;
        loop {
            let read = csv_fields::field_read(file, at).ok_or(Fault::Grammar)?;
            let place = FieldPlace {
                start: at - from,
                end: read.end - from,
                form: read.form,
            };
            store(&mut places, count, place);
            count += 1;
            match read.ended_by {
                FieldEnd::Comma => at = read.next,
                FieldEnd::RecordEnd | FieldEnd::FileEnd => {
                    if count != 4 {
                        return Err(Fault::Fields);
                    }
                    let entry = Entry {
                        text: &file[from..read.end],
                        places,
                    };
                    return Ok((entry, read.next));
                }
            }
        }
    }

    // The field at place j, with its quotes.
    fn raw(&self, j: usize) -> &'a [u8]
        requires { j < 4 }
        ensures { result.now ≡ get_or (raw_fields self.now.text.now) j [] }
    {
        let place = self.places[j];
        &self.text[place.start..place.end]
    }

    // The field at place j: that part of the file. Where it holds no doubled quote this is its value; where it does, it holds a quote, as no word
    // and no number does.
    pub(crate) fn part(&self, j: usize) -> &'a [u8]
        requires { j < 4 }
        ensures { result.now ≡ inside_of (get_or (raw_fields self.now.text.now) j []) }
    {
        csv_fields::part_of(self.raw(j))
    }

    // The name, which stands second: that part of the file, or, where a quote is doubled in it, its value undone into the buffer. What does not fit
    // there is longer than any name, and so is the part then.
    pub(crate) fn name<'b>(&self, buffer: &'b mut [u8; MOST_NAME_BYTES]) -> &'b [u8]
    where
        'a: 'b,
        ensures { (value : List ℕ) → field_value (get_or (raw_fields self.now.text.now) 1 []) ≡ some value → NameFor value result.now }
    {
        let field = self.raw(1);
        let inside = csv_fields::part_of(field);
        match self.places[1].form {
            FieldForm::Part => inside,
            FieldForm::Doubled => match csv_fields::undo(field, buffer) {
                Ok(n) => &buffer[..n],
                Err(_) => inside,
            },
        }
    }
}
