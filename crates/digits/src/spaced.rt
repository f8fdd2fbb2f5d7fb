// A row of digits as text.
ghost use Rattle.std.specs.Prelude.{Some};
ghost use Rattle.faults.specs.Text.{spaced};

use std::fmt;

// A row of digits, with a space before each.
#[derive(Clone, Copy)]
pub struct Spaced<'a>(pub &'a [u8]);

impl fmt::Display for Spaced<'_> {
    ghost output = { λ s. Some (spaced s.0.now) };

    fn fmt<W: fmt::Write>(&self, f: &mut fmt::Formatter<W>) -> fmt::Result {
        for digit in self.0 {
            write!(f, " {digit}")?;
        }
        Ok(())
    }
}
