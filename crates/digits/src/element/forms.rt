// Elements made, read from rows of six digits, written to them, and looked at digit by digit.
ghost use Rattle.std.specs.Prelude.{◌≡◌, ◌%◌, Some, None, MatchResult};
ghost use Rattle.digits.specs.Elements.{zero_element, element_at};
ghost use Rattle.digits.specs.Refusals.{long_fault, row_fault};
ghost use Rattle.digits.specs.Rows.{at};

use crate::element::Element;
use crate::rows::{check_length, check_row, digit_at, rest_at};
use faults::Fault;
use std::array;

impl Element {
    // The element whose digits are all 0.
    pub fn zero() -> Element
        ensures { result.digits ≡ zero_element }
    {
        Element { digits: [0; 6] }
    }

    // The element of the six numbers of a row from a place on, each taken modulo 6; past the row's end they are 0.
    pub fn read_at(row: &[u8], place: usize) -> Element
        ensures { result.digits ≡ element_at row.now place }
    {
        let rest = rest_at(row, place);
        Element {
            digits: array::from_fn(|r| digit_at(rest, r) % 6),
        }
    }

    // Writes the six digits into a row of that length; any other row is refused and stays as it was.
    pub fn write(&self, row: &mut [u8]) -> Result<(), Fault>
        ensures { MatchResult result
            (λ _. (long_fault 6 row.old ≡ None) × (row.new ≡ self.now.digits))
            (λ f. (long_fault 6 row.old ≡ Some f) × (row.new ≡ row.old)) }
    {
        check_length(row, 6)?;
        row.copy_from_slice(&self.digits);
        Ok(())
    }

    // The digit that goes with the power r of g, r taken modulo 6.
    pub fn digit(&self, r: usize) -> u8
        ensures { result ≡ at self.now.digits (r % 6) }
    {
        self.digits[r % 6]
    }
}

// The element of six numbers, each taken modulo 6.
impl From<[u8; 6]> for Element {
    ghost from_gives = { λ numbers e. e.digits ≡ element_at numbers 0 };

    fn from(numbers: [u8; 6]) -> Element {
        Element {
            digits: numbers.map(|number| number % 6),
        }
    }
}

// The six digits of an element.
impl From<Element> for [u8; 6] {
    ghost from_gives = { λ e digits. digits ≡ e.digits };

    fn from(element: Element) -> [u8; 6] {
        element.digits
    }
}

// The element that a row of six digits holds; any other row is refused.
impl TryFrom<&[u8]> for Element {
    type Error = Fault;

    ghost try_from_gives = { λ row result. MatchResult result
        (λ e. (row_fault 6 row.now ≡ None) × (e.digits ≡ row.now))
        (λ f. row_fault 6 row.now ≡ Some f) };

    fn try_from(row: &[u8]) -> Result<Element, Fault> {
        check_row(row, 6)?;
        Ok(Element {
            // six bytes, as the check has seen
            digits: *row.as_array().unwrap(),
        })
    }
}
