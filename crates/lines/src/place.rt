// The place of an output's next text.
ghost use Rattle.std.specs.Prelude.{◌≡◌, ◌<◌, length, IfOk, IfErr};
ghost use Rattle.lines.specs.declared.WriteError.TheVariants.{TooLong};

use crate::WriteError;
use crate::output::Output;

impl Output<'_> {
    // Has the next text go to a place. Behind the end none would fit, and the output stays as it is. Not a constructor: tried, and no proof is
    // made of what the bytes lent end as where there is no output.
    pub fn move_to(&mut self, at: usize) -> Result<(), WriteError>
        ensures place { IfOk result (λ _. self.new.at ≡ at) }
        ensures behind { IfErr result (λ error. (error ≡ TooLong) × (length self.old.bytes.now < at) × (self.new.at ≡ self.old.at)) }
        ensures kept { self.new.bytes.now ≡ self.old.bytes.now }
        ensures same { self.new.bytes.ghost_name ≡ self.old.bytes.ghost_name }
    {
        if self.bytes.len() < at {
            return Err(WriteError::TooLong);
        }
        self.at = at;
        Ok(())
    }
}
