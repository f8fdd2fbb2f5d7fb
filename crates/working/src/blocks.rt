// Rows of digits under names, as lines of text.
ghost use Rattle.std.specs.Prelude.{[], ◌∷◌, Some};
ghost use Rattle.working.specs.Layout.{row_text, block_text, element_text};

use digits::{Element, Spaced};
use std::fmt;

// So many digits stand in a line at most.
const DIGITS_A_LINE: usize = 30;

// A line with a name and a number. The lines below stay types of their own: one line over whatever is told would say its text by that of
// any `Display`, and no longer by `row_text`, and a number, with a space before it, would need a type of its own. That is no plainer.
#[derive(Clone, Copy)]
pub(crate) struct Number<'a>(pub &'a str, pub usize);

impl fmt::Display for Number<'_> {
    ghost output = { λ n. Some (row_text n.0.now (n.1 ∷ [])) };

    fn fmt<W: fmt::Write>(&self, f: &mut fmt::Formatter<W>) -> fmt::Result {
        let name = self.0;
        let number = self.1;
        writeln!(f, "{name:<15} {number}")
    }
}

// A line with a name and digits.
#[derive(Clone, Copy)]
pub(crate) struct Row<'a>(pub &'a str, pub &'a [u8]);

impl fmt::Display for Row<'_> {
    ghost output = { λ r. Some (row_text r.0.now r.1.now) };

    fn fmt<W: fmt::Write>(&self, f: &mut fmt::Formatter<W>) -> fmt::Result {
        let name = self.0;
        let digits = Spaced(self.1);
        writeln!(f, "{name:<15}{digits}")
    }
}

// A row of any length under a name, in as many lines as it takes.
#[derive(Clone, Copy)]
pub(crate) struct Block<'a>(pub &'a str, pub &'a [u8]);

impl fmt::Display for Block<'_> {
    ghost output = { λ b. Some (block_text b.0.now b.1.now) };

    fn fmt<W: fmt::Write>(&self, f: &mut fmt::Formatter<W>) -> fmt::Result {
        let mut name = self.0;
        // as `lines_text` has it: the name is handed on empty. Names in a chain beside the chunks, or a count of lines, are no plainer.
        for digits in self.1.chunks(DIGITS_A_LINE) {
            write!(f, "{}", Row(name, digits))?;
            name = "";
        }
        Ok(())
    }
}

// A line with an element under a name.
#[derive(Clone, Copy)]
pub(crate) struct Named<'a>(pub &'a str, pub Element);

impl fmt::Display for Named<'_> {
    ghost output = { λ n. Some (row_text n.0.now n.1.digits) };

    fn fmt<W: fmt::Write>(&self, f: &mut fmt::Formatter<W>) -> fmt::Result {
        let name = self.0;
        let digits = <[u8; 6]>::from(self.1);
        write!(f, "{}", Row(name, &digits))
    }
}

// The line of a sheet's element of a coordinate. It is no `Named`, since its name ends with a number, which is filled up by itself.
#[derive(Clone, Copy)]
pub(crate) struct Coordinate(pub usize, pub Element);

impl fmt::Display for Coordinate {
    ghost output = { λ c. Some (element_text c.0 c.1.digits) };

    fn fmt<W: fmt::Write>(&self, f: &mut fmt::Formatter<W>) -> fmt::Result {
        let coordinate = self.0;
        let digits = <[u8; 6]>::from(self.1);
        let digits = Spaced(&digits);
        writeln!(f, "  element {coordinate:<5}{digits}")
    }
}
