// Elements of the ring that answers are reckoned in.
ghost use Rattle.std.specs.Prelude.{◌≡◌, length};
ghost use Rattle.digits.specs.Rows.{Digits};

// An element: six digits e0 .. e5 that stand for e0 + e1 g + .. + e5 g^5, a polynomial in g with digits modulo 6, where
// g^6 = 1. (The usual name of the ring is the group ring of the cyclic group of order 6.) Its type says that there are
// six numbers and that each is a digit.
#[derive(Clone, Copy, PartialEq, Eq)]
pub struct Element {
    digits: [u8; 6],
    ghost six: { length digits ≡ 6 },
    ghost small: { Digits digits },
}

pub mod forms;
pub mod ring;
