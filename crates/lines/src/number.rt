// A number put into an output in base ten.
ghost use Rattle.std.specs.Prelude.{◌≡◌, List, [], ◌∷◌, ◌++◌, ℕ};
ghost use Rattle.planfile.specs.Numerals.{decimal, Numeral};
ghost use Rattle.lines.specs.Putting.{plain, number, Writes};

use crate::WriteError;
use crate::output::Output;
use itoa::{Buffer, Integer};

// No number of 64 bits has more digits.
pub const MOST_DIGITS: usize = u64::MAX_STR_LEN;

// The digits of a number in base ten.
fn digits_of(n: u64, buffer: &mut Buffer) -> &[u8]
    ensures { result.now ≡ decimal n }
{
    buffer.format(n).as_bytes()
}

impl Output<'_> {
    // Puts a number in base ten, and behind it what ends it: a comma, CR LF, or nothing.
    pub fn write_number(&mut self, n: u64, end: &[u8]) -> Result<(), WriteError>
        ensures { Writes (number n ∷ plain end.now ∷ [])
            (λ stands. (digits : List ℕ) × Numeral digits n × (stands ≡ digits ++ end.now)) self.old result self.new }
    {
        let mut buffer = Buffer::new();
        self.write_bytes(digits_of(n, &mut buffer))?;
        self.write_bytes(end)
    }
}
