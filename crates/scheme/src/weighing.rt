// The four elements that two sheets come to, each with its weight.
ghost use Rattle.std.specs.Prelude.{◌≡◌};
ghost use Rattle.scheme.specs.Recovery.{weighed};

use digits::Element;

// Why these: each position's part in the four elements depends on its product l with v(t), which is 0, 1, 3 or 4. Weighed
// with these, the parts of l = 1, 3 and 4 cancel, and that of l = 0, where the entry is, comes to D times the entry, times g to
// the power of the shift.
const C1: [u8; 6] = [0, 1, 0, 0, 2, 3];

const C2: [u8; 6] = [0, 5, 0, 0, 4, 3];

const C3: [u8; 6] = [0, 1, 0, 3, 2, 0];

const C4: [u8; 6] = [0, 5, 0, 3, 4, 0];

// W of Y1 to Y4: the sum of the four, each times its weight.
pub fn weighed(y1: Element, y2: Element, y3: Element, y4: Element) -> Element
    ensures { result.digits ≡ weighed y1.digits y2.digits y3.digits y4.digits }
{
    (Element::from(C1) * y1 + Element::from(C2) * y2)
        + (Element::from(C3) * y3 + Element::from(C4) * y4)
}
