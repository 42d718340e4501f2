// Numbers in a file.
ghost use Rattle.std.specs.Prelude.{◌≡◌};
ghost use Rattle.planreader.specs.Parts.{value_read, Whole, ranged_in};

use std::ops::RangeInclusive;

// The value of digits in base ten; none where a byte is no digit, or where it passes 64 bits.
fn value(text: &[u8]) -> Option<u64>
    ensures { value_read text.now result }
{
    let mut n: u64 = 0;
    for b in text {
        if !b.is_ascii_digit() {
            return None;
        }
        n = n.checked_mul(10)?.checked_add(u64::from(*b - b'0'))?;
    }
    Some(n)
}

// A numeral, digits without a leading zero or `0`, whose number is in a range. Not by std's `parse`, which takes a sign and leading zeros.
// An Option: which fault a number is when it is none is its callers' to say.
pub(crate) fn in_range(text: &[u8], range: &RangeInclusive<u64>) -> Option<u64>
    requires { Whole range.now }
    ensures { result ≡ ranged_in range.now text.now }
{
    match text {
        [] | [b'0', _, ..] => None,
        _ => value(text).filter(|n| range.contains(n)),
    }
}
