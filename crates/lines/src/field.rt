// A value put into an output as a field: in quotes only where it needs them.
ghost use Rattle.std.specs.Prelude.{◌≡◌, ◌==◌, true, List, [], ◌∷◌, ◌++◌, ℕ, ◌+◌, ◌≤◌, length, count_by, not, ◌&&◌, ◌<◌, set};
ghost use Rattle.std.specs.List.{list_all};
ghost use Rattle.rfc4180.specs.Grammar.{Field};
ghost use Rattle.rfc4180.specs.Bytes.{quote, class_of};
ghost use Rattle.rfc4180.specs.Writer.{is_allowed, asks_for_quotes, needs_quotes, written};
ghost use Rattle.lines.specs.Putting.{plain, field as field_of, put_at, Puts, Writes};

use crate::WriteError;
use crate::output::Output;
use rfc4180::{ByteClass, class_of};

// What stands around a field in quotes, and twice for each of its own.
const QUOTE: u8 = b'"';

// Whether a byte can be written.
#[tactic(auto, unfolding(rfc4180::specs::Writer::is_allowed))]
fn is_allowed(b: u8) -> bool
    ensures { result ≡ is_allowed (class_of b) }
{
    class_of(b) != ByteClass::Refused
}

// Whether a byte can be written outside quotes.
#[tactic(auto, unfolding(rfc4180::specs::Writer::is_allowed, rfc4180::specs::Writer::asks_for_quotes))]
fn is_text(b: u8) -> bool
    ensures { result ≡ (is_allowed (class_of b) && not (asks_for_quotes (class_of b))) }
{
    class_of(b) == ByteClass::Text
}

// Whether a value can be written.
fn is_writable(value: &[u8]) -> bool
    ensures { result ≡ list_all (λ b. is_allowed (class_of b)) value.now }
{
    value.iter().all(|b| is_allowed(*b))
}

// Whether a value can be written as it is.
fn is_plain(value: &[u8]) -> bool
    ensures { result ≡ list_all (λ b. is_allowed (class_of b) && not (asks_for_quotes (class_of b))) value.now }
{
    value.iter().all(|b| is_text(*b))
}

// How many quotes a value holds.
fn count_quotes(value: &[u8]) -> usize
    ensures count { result ≡ count_by (λ b. b == quote) value.now }
    ensures within { result ≤ length value.now }
{
    value.iter().filter(|b| **b == QUOTE).count()
}

impl Output<'_> {
    // A byte at the next place.
    fn push(&mut self, b: u8)
        requires { self.old.at < length self.old.bytes.now }
        ensures onward { self.new.at ≡ self.old.at + 1 }
        ensures stored { self.new.bytes.now ≡ set self.old.bytes.now self.old.at b }
        ensures same { self.new.bytes.ghost_name ≡ self.old.bytes.ghost_name }
    {
        self.bytes[self.at] = b;
        self.at += 1;
    }

    // The value in quotes, each quote in it doubled.
    fn store_quoted(&mut self, value: &[u8])
        requires { (needs_quotes value.now ≡ true) × (self.old.at + length (written value.now) ≤ length self.old.bytes.now) }
        ensures onward { self.new.at ≡ self.old.at + length (written value.now) }
        ensures stored { self.new.bytes.now ≡ put_at self.old.at (written value.now) self.old.bytes.now }
        ensures same { self.new.bytes.ghost_name ≡ self.old.bytes.ghost_name }
    {
        self.push(QUOTE);
        for b in value {
            if *b == QUOTE {
                self.push(QUOTE);
            }
            self.push(*b);
        }
        self.push(QUOTE);
    }

    // The field alone.
    fn write_value(&mut self, value: &[u8]) -> Result<(), WriteError>
        ensures { Puts (field_of value.now ∷ []) self.old result self.new }
    {
        // Most values are plain, and are gone over once.
        if is_plain(value) {
            return self.write_bytes(value);
        }
        if !is_writable(value) {
            return Err(WriteError::Refused);
        }
        // The bytes before the closing quote: with that one they can be more than a usize holds.
        let n = value.len() + count_quotes(value) + 1;
        if self.bytes.len() - self.at <= n {
            return Err(WriteError::TooLong);
        }
        self.store_quoted(value);
        Ok(())
    }

    // Puts a value as a field, and behind it what ends it: a comma, CR LF, or nothing. The kit's `csv` writes fields too, but promises nothing
    // in RFC 4180's grammar.
    pub fn write_field(&mut self, value: &[u8], end: &[u8]) -> Result<(), WriteError>
        ensures { Writes (field_of value.now ∷ plain end.now ∷ [])
            (λ stands. (raw : List ℕ) × Field raw value.now × (stands ≡ raw ++ end.now)) self.old result self.new }
    {
        self.write_value(value)?;
        self.write_bytes(end)
    }
}
