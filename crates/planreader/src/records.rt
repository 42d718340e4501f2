// The records after record 1, read into a plan or refused.
ghost use Rattle.std.specs.Prelude.{◌≡◌, ◌≤◌, length};
ghost use Rattle.planfile.specs.Bounds.{most_bytes};
ghost use Rattle.planreader.specs.Records.{kind_named, begun_by, Held, AddsRecord, AddsNext, RecordsBy, read_behind, IsBegun};

use crate::FilePlan;
use crate::entry::Entry;
use crate::items::{ItemFields, Rule};
use planfile::MOST_NAME_BYTES;
use planning::{Fault, MOST_ENERGY, MOST_FUEL, MOST_LIMIT, MOST_WATTS, Refusal};

// What a record after record 1 holds.
#[derive(Clone, Copy)]
enum Kind {
    Engine,
    Quiet,
    Delivery,
}

// A kind by its word.
#[tactic(auto, unfolding(crate::specs::Records::kind_by, crate::specs::Records::kind_named, rfc4180::specs::Text::ascii))]
fn kind_of(text: &[u8]) -> Option<Kind>
    ensures { result ≡ kind_named text.now }
{
    match text {
        b"engine" => Some(Kind::Engine),
        b"quiet" => Some(Kind::Quiet),
        b"delivery" => Some(Kind::Delivery),
        _ => None,
    }
}

// Adds the engine, quiet span or delivery of a record that has four fields: 4, then for an item 7 and its fields, for a quiet span 10, its
// fields and 11.
fn add_record(entry: &Entry<'_>, plan: &mut FilePlan) -> Result<(), Fault>
    requires { Held plan.old }
    ensures { AddsRecord entry.now.text.now plan.old plan.new result }
{
    let kind = kind_of(entry.part(0)).ok_or(Fault::Kind)?;
    let mut buffer = [0u8; MOST_NAME_BYTES];
    let fields = ItemFields {
        name: entry.name(&mut buffer),
        third: entry.part(2),
        fourth: entry.part(3),
    };
    match kind {
        Kind::Engine => {
            let rule = Rule {
                first: 0..=MOST_WATTS,
                second: 0..=MOST_FUEL,
            };
            plan.engines.add(fields, &rule)
        }
        Kind::Quiet => plan.add_quiet(fields),
        Kind::Delivery => {
            let rule = Rule {
                first: 1..=MOST_ENERGY,
                second: 1..=MOST_LIMIT,
            };
            plan.deliveries.add(fields, &rule)
        }
    }
}

// Adds the record that begins at a place of a file: 2 and 3, then what it holds. Behind it the next one begins.
fn add_next(file: &[u8], from: usize, plan: &mut FilePlan) -> Result<usize, Fault>
    requires { (from ≤ length file.now) × Held plan.old }
    ensures { AddsNext file.now from plan.old plan.new result }
{
    let (entry, next) = Entry::cut(file, from)?;
    add_record(&entry, plan)?;
    Ok(next)
}

// Reads the records from a place on, which are records 2 and further, into an empty plan; 8 after the last one.
pub(crate) fn read(file: &[u8], start: usize, plan: &mut FilePlan) -> Result<(), Refusal>
    requires { (length file.now ≤ most_bytes) × IsBegun plan.old }
    ensures { RecordsBy (read_behind file.now start (begun_by plan.old)) plan.new result }
{
    let mut from = start;
    // counted beside the loop, which goes on where the record before ended
    let mut place: u64 = 2;
    while from < file.len() {
        from = add_next(file, from, plan).map_err(|fault| fault.at(place))?;
        place += 1;
    }
    if plan.engines.count == 0 {
        return Err(Fault::NoEngine.at(0));
    }
    Ok(())
}
