// RFC 4180, the format of CSV files: its bytes, and the class of each. Grammar, reading and writer are definitions, in specs/, and their laws
// stand in proofs/; the code that reads and writes by them stands in csv_fields and lines.
#![tactic(auto)]

ghost use Rattle.std.specs.Prelude.{◌≡◌};
ghost use Rattle.rfc4180.specs.Bytes.{class_of};

// What a byte is in the grammar of RFC 4180: its terminals, and Refused for a byte that stands nowhere in a file.
#[derive(Clone, Copy, Debug, PartialEq, Eq)]
pub enum ByteClass {
    Text,
    Quote,
    Comma,
    CarriageReturn,
    LineFeed,
    Refused,
}

// The class of a byte, decided by ranges.
#[tactic(auto, unfolding(crate::specs::Bytes::class_of, crate::specs::Bytes::in_range))]
pub fn class_of(b: u8) -> ByteClass
    ensures { result ≡ class_of b }
{
    match b {
        0x20..=0x21 | 0x23..=0x2B | 0x2D..=0x7E => ByteClass::Text,
        0x22 => ByteClass::Quote,
        0x2C => ByteClass::Comma,
        0x0D => ByteClass::CarriageReturn,
        0x0A => ByteClass::LineFeed,
        _ => ByteClass::Refused,
    }
}
