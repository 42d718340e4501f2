// The numbers of an input, one behind the other. Anything that is no digit stands between them.
ghost use Rattle.std.specs.Prelude.{◌≡◌, ◌≤◌, length, not, take_while};
ghost use Rattle.std.specs.Char.{is_ascii_digit};
ghost use Rattle.report.specs.Input.{first_digits, first_number, behind_number};

// How many bytes stand before the first digit.
fn gap(bytes: &[u8]) -> usize
    ensures { result ≡ length (take_while (λ b. not (is_ascii_digit b)) bytes.now) }
{
    bytes.iter().take_while(|b| !b.is_ascii_digit()).count()
}

// How many digits stand at the front.
fn digits_count(bytes: &[u8]) -> usize
    ensures { result ≡ length (take_while is_ascii_digit bytes.now) }
{
    bytes.iter().take_while(|b| b.is_ascii_digit()).count()
}

// What is left of an input.
#[derive(Clone, Copy)]
pub struct Scanner<'a> {
    pub rest: &'a [u8],
}

impl<'a> Scanner<'a> {
    // The next digits, up to a byte that is none. They leave the rest, and so does what stands before them.
    #[tactic(auto, unfolding(crate::specs::Input::from_digit, crate::specs::Input::first_digits, crate::specs::Input::behind_number))]
    fn digits(&mut self) -> &'a [u8]
        ensures digits { result.now ≡ first_digits self.old.rest.now }
        ensures behind { self.new.rest.now ≡ behind_number self.old.rest.now }
    {
        let (_, found) = self.rest.split_at(gap(self.rest));
        let (digits, behind) = found.split_at(digits_count(found));
        self.rest = behind;
        digits
    }

    // The next number, or the most where that is less; 0 where no digit follows, since an input that ends early is read as zeros. The rest
    // then begins behind it.
    pub fn number(&mut self, most: u64) -> u64
        ensures value { result ≡ first_number self.old.rest.now most }
        ensures behind { self.new.rest.now ≡ behind_number self.old.rest.now }
        ensures capped { result ≤ most }
        ensures onward { length self.new.rest.now ≤ length self.old.rest.now }
    {
        let mut value: u64 = 0;
        for b in self.digits() {
            value = value
                .saturating_mul(10)
                .saturating_add(u64::from(b - b'0'))
                .min(most);
        }
        value
    }
}
