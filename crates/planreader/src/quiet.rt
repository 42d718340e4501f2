// The quiet spans of a file: a list of three numbers each, filled from the front.
ghost use Rattle.std.specs.Prelude.{length, map};
ghost use Rattle.planning.specs.Numbers.{quiet_three};
ghost use Rattle.planreader.specs.Items.{fields_in};
ghost use Rattle.planreader.specs.Plans.{names_in, QuietHeld};
ghost use Rattle.planreader.specs.Quiet.{SpanRead, AddsQuiet};

use crate::items::ItemFields;
use crate::{FilePlan, Items, numeral};
use planning::{Fault, MOST_ENGINES, MOST_MINUTES, QuietSpan};

// A quiet span behind earlier ones of three numbers each: 10 where its engine is none of these, then its fields from the left, then 11.
fn read(
    fields: ItemFields<'_>,
    engines: &Items<MOST_ENGINES>,
    quiet: &[[u64; 3]],
) -> Result<QuietSpan<u64>, Fault>
    ensures { SpanRead (names_in engines.now) (map quiet_three quiet.now) (fields_in fields.entry) result }
{
    let place = engines.find(fields.name).ok_or(Fault::UnknownEngine)?;
    let minutes = 0..=MOST_MINUTES;
    let from = numeral::in_range(fields.third, &minutes).ok_or(Fault::Value)?;
    let to = numeral::in_range(fields.fourth, &minutes).ok_or(Fault::Value)?;
    let engine = (place + 1) as u64;
    let span = QuietSpan { engine, from, to };
    if !span.fits_among(quiet) {
        return Err(Fault::QuietSpan);
    }
    Ok(span)
}

impl FilePlan {
    // Adds the quiet span of a record. Not by `Items::add`: a span has no name of its own, and its fields are looked at in another order.
    pub(crate) fn add_quiet(&mut self, fields: ItemFields<'_>) -> Result<(), Fault>
        requires { QuietHeld (length (names_in self.old.engines)) self.old.spans self.old.quiet }
        ensures { AddsQuiet (fields_in fields.entry) self.old self.new result }
    {
        let k = self.spans;
        let span = read(fields, &self.engines, &self.quiet[..k])?;
        self.quiet[k] = [span.engine, span.from, span.to];
        self.spans += 1;
        Ok(())
    }
}
