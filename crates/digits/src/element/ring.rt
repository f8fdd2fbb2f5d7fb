// The ring of elements: sum, product, division by a power of g, and scaling by a digit.
ghost use Rattle.std.specs.Prelude.{◌≡◌, ℕ, ◌%◌, ◌<◌};
ghost use Rattle.digits.specs.Elements.{plus, times, times_digit, scaled, turned, power};
ghost use Rattle.digits.specs.Rows.{at};

use crate::element::Element;
use crate::product::dot;
use std::array;
use std::ops::{Add, Mul};

impl Add for Element {
    type Output = Element;

    ghost add_gives = { λ e f sum. sum.digits ≡ plus e.digits f.digits };

    fn add(self, other: Element) -> Element {
        Element {
            digits: array::from_fn(|r| (self.digits[r] + other.digits[r]) % 6),
        }
    }
}

// Digit r of a product, r taken modulo 6: the sum of all a(i) b(j) where i + j leaves r. To each i
// there is one such j, its partner: r less i. The partners are looked up one by one: to turn b's
// digits backward by the library's `rotate_left` clears 4,096 bytes of stack each time.
#[tactic(auto, using(crate::proofs::Multiplying::partners_product))]
fn product_digit(a: &Element, b: &Element, r: usize) -> u8
    ensures value { result ≡ times_digit a.now.digits b.now.digits (r % 6) }
    ensures small { result < 6 }
{
    let partners: [u8; 6] = array::from_fn(|i| b.digits[(r % 6 + 6 - i) % 6]);
    dot(&a.digits, &partners)
}

impl Mul for Element {
    type Output = Element;

    ghost mul_gives = { λ e f product. product.digits ≡ times e.digits f.digits };

    fn mul(self, other: Element) -> Element {
        Element {
            digits: array::from_fn(|r| product_digit(&self, &other, r)),
        }
    }
}

impl Element {
    // The element divided by the power s of g: digit r is digit r + s, modulo 6.
    pub fn turned(&self, s: usize) -> Element
        ensures value { result.digits ≡ turned s self.now.digits }
        ensures divides { (q : ℕ) → q < 6 → at (times (power 1 s) result.digits) q ≡ at self.now.digits q }
    {
        Element {
            digits: array::from_fn(|r| self.digits[(r + s % 6) % 6]),
        }
    }

    // Each digit times a number, modulo 6.
    pub fn scaled(&self, by: u8) -> Element
        ensures { result.digits ≡ scaled by self.now.digits }
    {
        Element {
            digits: array::from_fn(|r| (u32::from(by) * u32::from(self.digits[r]) % 6) as u8),
        }
    }
}
