// A working as text: the request, the two sheets, and what they come to.
ghost use Rattle.std.specs.Prelude.{◌≡◌, Some};
ghost use Rattle.working.specs.Layout.{coordinates, elements_text, sheet_text, request_text, sheets_text, reckoned_text, working_text};
ghost use Rattle.working.specs.Works.{reckoned, working};

use crate::blocks::{Block, Coordinate, Named, Number};
use crate::reckoning::Reckoning;
use crate::work::Work;
use digits::Element;
use scheme::value;
use std::fmt;

// Of how many coordinates a sheet has the element.
fn coordinates(sheet: &[u8]) -> usize
    ensures { result ≡ coordinates sheet.now }
{
    (sheet.len() / 6).saturating_sub(1)
}

// The lines of a sheet's elements, by coordinate.
#[derive(Clone, Copy)]
struct Elements<'a>(&'a [u8]);

impl fmt::Display for Elements<'_> {
    ghost output = { λ e. Some (elements_text e.0.now (coordinates e.0.now)) };

    fn fmt<W: fmt::Write>(&self, f: &mut fmt::Formatter<W>) -> fmt::Result {
        let sheet = self.0;
        // by coordinate, as the definition has it: chunks of six would each have to be shown to be the element, and be counted besides
        for coordinate in 0..coordinates(sheet) {
            let element = Element::read_at(sheet, 6 * (1 + coordinate));
            write!(f, "{}", Coordinate(coordinate, element))?;
        }
        Ok(())
    }
}

// The lines of a sheet: its value, and its elements.
#[derive(Clone, Copy)]
struct Sheet<'a>(&'a [u8]);

impl fmt::Display for Sheet<'_> {
    ghost output = { λ s. Some (sheet_text s.0.now) };

    #[tactic(auto, unfolding(crate::specs::Layout::sheet_text))]
    fn fmt<W: fmt::Write>(&self, f: &mut fmt::Formatter<W>) -> fmt::Result {
        let value = Named("  value", value(self.0));
        let elements = Elements(self.0);
        write!(f, "{value}{elements}")
    }
}

// Six lines, one for each element.
impl fmt::Display for Reckoning {
    ghost output = { λ r. Some (reckoned_text (reckoned r)) };

    #[tactic(auto, unfolding(crate::specs::Layout::reckoned_text))]
    fn fmt<W: fmt::Write>(&self, f: &mut fmt::Formatter<W>) -> fmt::Result {
        let y1 = Named("Y1", self.y1);
        let y2 = Named("Y2", self.y2);
        let y3 = Named("Y3", self.y3);
        let y4 = Named("Y4", self.y4);
        let w = Named("W", self.w);
        let x = Named("X", self.x);
        write!(f, "{y1}{y2}{y3}{y4}{w}{x}")
    }
}

// The request of a lookup: the position, the tape digits, the shift and the queries.
#[derive(Clone, Copy)]
struct Request<'a>(&'a Work);

impl fmt::Display for Request<'_> {
    ghost output = { λ r. Some (request_text (working r.0.now)) };

    #[tactic(auto, unfolding(crate::specs::Layout::request_text))]
    fn fmt<W: fmt::Write>(&self, f: &mut fmt::Formatter<W>) -> fmt::Result {
        let found = &self.0.found;
        let queried = found.first.as_slice();
        let position = Number("position", found.position);
        let tape = Block("tape digits", queried);
        let shift = Number("shift", usize::from(self.0.shift));
        let first = Block("first query", queried);
        let second = Block("second query", found.second.as_slice());
        write!(f, "{position}{tape}{shift}{first}{second}")
    }
}

// The sheets of a lookup, each under its name.
#[derive(Clone, Copy)]
struct Sheets<'a>(&'a Work);

impl fmt::Display for Sheets<'_> {
    ghost output = { λ s. Some (sheets_text (working s.0.now)) };

    #[tactic(auto, unfolding(crate::specs::Layout::sheets_text))]
    fn fmt<W: fmt::Write>(&self, f: &mut fmt::Formatter<W>) -> fmt::Result {
        let first = Sheet(self.0.found.first_sheet.as_slice());
        let second = Sheet(self.0.found.second_sheet.as_slice());
        write!(f, "first sheet\n{first}second sheet\n{second}")
    }
}

// The whole working.
impl fmt::Display for Work {
    ghost output = { λ w. Some (working_text (working w)) };

    #[tactic(auto, unfolding(crate::specs::Layout::working_text))]
    fn fmt<W: fmt::Write>(&self, f: &mut fmt::Formatter<W>) -> fmt::Result {
        let request = Request(self);
        let sheets = Sheets(self);
        let reckoning = self.reckoning;
        let entry = Number("entry", usize::from(self.found.reading.entry));
        let carried = Number("carried", self.found.reading.carried);
        write!(f, "{request}{sheets}{reckoning}{entry}{carried}")
    }
}
