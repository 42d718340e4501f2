// Bytes put into an output as they are.
ghost use Rattle.std.specs.Prelude.{◌≡◌, [], ◌∷◌, ◌+◌, ◌≤◌, length};
ghost use Rattle.lines.specs.Putting.{plain, put_at, Writes};

use crate::WriteError;
use crate::output::Output;

// Bytes stored from a place on. By a loop, of which the compiler makes a `memcpy`: `copy_from_slice` is a `memmove`, and the C archive would
// need that name from outside too.
fn store(bytes: &[u8], out: &mut [u8], at: usize)
    requires { at + length bytes.now ≤ length out.old }
    ensures { out.new ≡ put_at at bytes.now out.old }
{
    for (i, b) in bytes.iter().enumerate() {
        out[at + i] = *b;
    }
}

impl Output<'_> {
    // Puts bytes as they are.
    pub fn write_bytes(&mut self, bytes: &[u8]) -> Result<(), WriteError>
        ensures { Writes (plain bytes.now ∷ []) (λ stands. stands ≡ bytes.now) self.old result self.new }
    {
        if self.bytes.len() - self.at < bytes.len() {
            return Err(WriteError::TooLong);
        }
        store(bytes, self.bytes, self.at);
        self.at += bytes.len();
        Ok(())
    }
}
