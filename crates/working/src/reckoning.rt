// What recovery reckons from the two sheets of a lookup.
ghost use Rattle.std.specs.Prelude.{◌≡◌};
ghost use Rattle.working.specs.Workings.{reckoned_from};
ghost use Rattle.working.specs.Works.{reckoned};

use digits::Element;
use family::Family;
use scheme::{slope, value, weighed};

// The elements that two sheets come to: Y1 and Y2 of the first, Y3 and Y4 of the second, then W and X.
#[derive(Clone, Copy)]
pub struct Reckoning {
    pub y1: Element,
    pub y2: Element,
    pub y3: Element,
    pub y4: Element,
    pub w: Element,
    pub x: Element,
}

impl Reckoning {
    // What the first sheet and the second come to for position t and a request's shift.
    pub fn new<F: Family>(family: &F, t: usize, shift: u8, one: &[u8], two: &[u8]) -> Reckoning
        ensures { reckoned result ≡ reckoned_from (F.Family.vectors family.now) t shift one.now two.now }
    {
        let y1 = value(one);
        let y2 = slope(family, t, one);
        let y3 = value(two);
        let y4 = slope(family, t, two);
        let w = weighed(y1, y2, y3, y4);
        Reckoning {
            y1,
            y2,
            y3,
            y4,
            w,
            x: w.turned(usize::from(shift)),
        }
    }
}
