// Recovery: what two sheets come to, and the entry read from it. (The usual word is reconstruction.)
ghost use Rattle.std.specs.Prelude.{◌≡◌};
ghost use Rattle.scheme.specs.Recovery.{value, slope, sheets_weighed, found, read_entry};

use crate::weighing::weighed;
use digits::{Element, rest_at};
use family::Family;

// X where the entry is 1.
const D: [u8; 6] = [0, 2, 0, 3, 4, 3];

// Y1 and Y3: a sheet's value.
pub fn value(sheet: &[u8]) -> Element
    ensures { result.digits ≡ value sheet.now }
{
    Element::read_at(sheet, 0)
}

// Y2 and Y4: the sum over all coordinates c of v(t)c times the sheet's element of c.
#[tactic(auto, using(crate::proofs::Elements::product_slope))]
pub fn slope<F: Family>(family: &F, t: usize, sheet: &[u8]) -> Element
    ensures { result.digits ≡ slope (F.Family.vectors family.now) t sheet.now }
{
    // past the element of the value
    family.v_product(t, rest_at(sheet, 6))
}

// W of two sheets, the first host's and the second's, for position t. (Two sheets, and no struct of them: nothing is kept of the two
// together, and each caller would make one for a single call.)
#[tactic(auto, unfolding(crate::specs::Recovery::sheets_weighed))]
pub fn sheets_weighed<F: Family>(family: &F, t: usize, one: &[u8], two: &[u8]) -> Element
    ensures { result.digits ≡ sheets_weighed (F.Family.vectors family.now) t one.now two.now }
{
    weighed(
        value(one),
        slope(family, t, one),
        value(two),
        slope(family, t, two),
    )
}

// X, what two sheets come to: W divided by g to the power of the request's shift.
pub fn found<F: Family>(family: &F, t: usize, shift: u8, one: &[u8], two: &[u8]) -> Element
    ensures { result.digits ≡ found (F.Family.vectors family.now) t shift one.now two.now }
{
    sheets_weighed(family, t, one, two).turned(usize::from(shift))
}

// The entry that X comes from, or none where X is not that entry times D: then the sheets are at odds.
pub fn read_entry(x: &Element) -> Option<u8>
    ensures { result ≡ read_entry x.now.digits }
{
    let entry = (x.digit(3) + 6 - x.digit(1)) % 6;
    (*x == Element::from(D).scaled(entry)).then_some(entry)
}
