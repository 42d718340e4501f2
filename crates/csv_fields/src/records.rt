// Where a record ends: at the first CR LF after an even number of quote bytes.
ghost use Rattle.csv_fields.specs.Promises.{EndsRecord};

use crate::RecordSpan;
use crate::scans::{find_outside, holds};

// The record that begins at a place of a file.
pub fn record_at(file: &[u8], from: usize) -> RecordSpan
    ensures { EndsRecord file.now from result }
{
    let mut at = from;
    // No `for`: it goes on behind the byte that each scan finds.
    loop {
        at = find_outside(file, at, 0x0D);
        if file.len() <= at {
            return RecordSpan {
                end: at,
                next: at,
                ended: false,
            };
        }
        if holds(file, at + 1, 0x0A) {
            return RecordSpan {
                end: at,
                next: at + 2,
                ended: true,
            };
        }
        at += 1;
    }
}
