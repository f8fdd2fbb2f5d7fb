// A row in a line, shortened where it is long.
use digits::Spaced;
use std::fmt;

// A row with a space before each byte. A long one is told by its length, and by one number that almost any other byte changes.
#[derive(Clone, Copy)]
pub(crate) struct Shortened<'a>(pub(crate) &'a [u8]);

impl fmt::Display for Shortened<'_> {
    fn fmt<W: fmt::Write>(&self, f: &mut fmt::Formatter<W>) -> fmt::Result {
        if self.0.len() > 60 {
            return write!(f, " {} bytes {}", self.0.len(), told(self.0));
        }
        write!(f, "{}", Spaced(self.0))
    }
}

// The row's bytes as digits in base 31, modulo the size of a `u32`.
fn told(row: &[u8]) -> u32 {
    row.iter().fold(
        0,
        |all: u32, byte| all.wrapping_mul(31).wrapping_add(u32::from(*byte)),
    )
}
