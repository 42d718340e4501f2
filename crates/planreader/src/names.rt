// Names: whether one is sound, and one by value.
ghost use Rattle.std.specs.Prelude.{◌≡◌, ℕ, ◌≤◌, leb, nat_eq, ◌&&◌, length};
ghost use Rattle.std.specs.Cmp.Lexicographic.{pointwise};
ghost use Rattle.std.specs.List.{list_all};
ghost use Rattle.planfile.specs.Bounds.{most_name_bytes, least_name_byte, most_name_byte};
ghost use Rattle.planfile.specs.Reading.{sound_name};

use planfile::{LEAST_NAME_BYTE, MOST_NAME_BYTE, MOST_NAME_BYTES};
use std::marker::Model;

// A name by value: the list of its bytes, which is no longer than a name may be.
#[derive(Clone, Copy)]
pub struct Name {
    bytes: [u8; MOST_NAME_BYTES],
    size: u8,
}

impl Model for Name {
    ghost use Rattle.std.specs.Prelude.{◌≡◌, ◌≤◌, ℕ, List, length, take};
    ghost use Rattle.std.proofs.Common.{sym, ap₂};
    ghost use Rattle.planning.specs.Tables.{padded};
    ghost use Rattle.planfile.specs.Bounds.{most_name_bytes};
    ghost use Rattle.planreader.specs.Laws.Padding.{front-size};

    ghost Value = { List ℕ };

    ghost view = { λ n. take n.size n.bytes };

    // so many bytes count, and 0 stands behind them
    ghost invariant = { λ n. (n.size ≤ most_name_bytes) × (n.bytes ≡ padded most_name_bytes (take n.size n.bytes)) };

    ghost inverse = { λ v. record { bytes = padded most_name_bytes v; size = length v } };

    ghost inverse_ok = { λ n h.
        ap₂ (λ (bytes : List ℕ) (size : ℕ). record { bytes = bytes; size = size })
        (sym h.1) (front-size most_name_bytes n.size n.bytes h.0 h.1) };
}

impl Name {
    // A name of those bytes.
    pub(crate) fn of(text: &[u8]) -> Name
        requires { length text.now ≤ most_name_bytes }
        ensures { result ≡ text.now }
    {
        let mut bytes = [0u8; MOST_NAME_BYTES];
        bytes[..text.len()].copy_from_slice(text);
        Name {
            bytes,
            size: text.len() as u8,
        }
    }

    // Its bytes.
    pub fn bytes(&self) -> &[u8]
        ensures value { result.now ≡ self.now }
        ensures short { length self.now ≤ most_name_bytes }
    {
        &self.bytes[..usize::from(self.size)]
    }

    // Whether a text is this name, from the back: names on a site begin alike and end in a number.
    pub(crate) fn is(&self, text: &[u8]) -> bool
        ensures { result ≡ pointwise nat_eq text.now self.now }
    {
        let bytes = self.bytes();
        text.len() == bytes.len()
            && text
                .iter()
                .rev()
                .zip(bytes.iter().rev())
                .all(|(a, b)| a == b)
    }
}

// Whether each byte is hex 20 to 7E.
fn has_name_bytes(name: &[u8]) -> bool
    ensures { result ≡ list_all (λ (b : ℕ). leb least_name_byte b && leb b most_name_byte) name.now }
{
    name.iter()
        .all(|b| (LEAST_NAME_BYTE..=MOST_NAME_BYTE).contains(b))
}

// Whether a name has 1 to 16 bytes, each hex 20 to 7E.
pub(crate) fn is_sound(name: &[u8]) -> bool
    ensures { result ≡ sound_name name.now }
{
    (1..=MOST_NAME_BYTES).contains(&name.len()) && has_name_bytes(name)
}
