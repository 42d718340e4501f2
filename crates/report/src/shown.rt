// Bytes put into an output so that they stay on one line, whatever they are.
ghost use Rattle.std.specs.Prelude.{◌≡◌, [], ◌∷◌, ◌++◌, ◌<◌, leb, ◌&&◌};
ghost use Rattle.lines.specs.Putting.{plain, Puts};
ghost use Rattle.report.specs.Shown.{hex_digit, hex_escape, own_letter, escaped, shown_texts};

use lines::{Output, WriteError};

// The hexadecimal digit of a number below 16. std's `from_digit` gives it as a `char`, and may give none.
#[tactic(auto, unfolding(crate::specs::Shown::hex_digit))]
fn hex_digit(n: u8) -> u8
    requires { n < 16 }
    ensures { result ≡ hex_digit n }
{
    if n < 10 { b'0' + n } else { b'a' - 10 + n }
}

// A byte by its two hexadecimal digits.
fn write_hex(b: u8, out: &mut Output<'_>) -> Result<(), WriteError>
    ensures { Puts (plain (hex_escape b) ∷ []) out.old result out.new }
{
    out.write_bytes(&[b'\\', b'x', hex_digit(b / 16), hex_digit(b % 16)])
}

// The letter of a byte that has an escape of its own.
#[tactic(auto, unfolding(crate::specs::Shown::own_letter))]
fn own_letter(b: u8) -> Option<u8>
    ensures { result ≡ own_letter b }
{
    match b {
        b'\r' => Some(b'r'),
        b'\n' => Some(b'n'),
        b'\\' => Some(b'\\'),
        _ => None,
    }
}

// Whether a byte can be printed.
fn is_printed(b: u8) -> bool
    ensures { result ≡ (leb 0x20 b && leb b 0x7E) }
{
    (0x20..=0x7E).contains(&b)
}

// A byte by its own escape where it has one, as itself where it can be printed, and by its digits where not. std's `escape_ascii` would escape
// quotes as well, which stand in many of the examples.
fn write_escaped(b: u8, out: &mut Output<'_>) -> Result<(), WriteError>
    ensures { Puts (plain (escaped b) ∷ []) out.old result out.new }
{
    match own_letter(b) {
        Some(letter) => out.write_bytes(&[b'\\', letter]),
        None if is_printed(b) => out.write_bytes(&[b]),
        None => write_hex(b, out),
    }
}

// Puts bytes in brackets, with line breaks, backslashes and what cannot be printed as escapes.
pub(crate) fn write_shown(bytes: &[u8], out: &mut Output<'_>) -> Result<(), WriteError>
    ensures { Puts (shown_texts bytes.now) out.old result out.new }
{
    out.write_bytes(b"[")?;
    for b in bytes {
        write_escaped(*b, out)?;
    }
    out.write_bytes(b"]")
}
