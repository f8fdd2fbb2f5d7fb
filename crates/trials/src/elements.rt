// Trials of elements, vectors of digits and tapes.
use digits::{Element, Spaced, draw, vector_product};
use faults::Fault;
use notation::{RefusalLine, Unanswered, bytes_of, number};
use std::alloc::{AllocError, Global};
use std::fmt;

// An element's digits.
#[derive(Clone, Copy)]
pub(crate) struct Shown(pub(crate) Element);

impl fmt::Display for Shown {
    fn fmt<W: fmt::Write>(&self, f: &mut fmt::Formatter<W>) -> fmt::Result {
        write!(f, "{}", Spaced(&<[u8; 6]>::from(self.0)))
    }
}

// The element that a word writes.
pub(crate) fn element_of(heap: Global, word: &str) -> Result<Element, Unanswered> {
    Ok(Element::try_from(bytes_of(heap, word)?.as_slice())?)
}

// A row as a call left it, under a name; the refusal comes first where the call was refused.
#[derive(Clone, Copy)]
struct RowAfter<'a>(Result<(), Fault>, &'a str, &'a [u8]);

impl fmt::Display for RowAfter<'_> {
    fn fmt<W: fmt::Write>(&self, f: &mut fmt::Formatter<W>) -> fmt::Result {
        let RowAfter(came, name, row) = self;
        if let Err(fault) = came {
            write!(f, "{} ", RefusalLine(*fault))?;
        }
        write!(f, "{name}{}", Spaced(row))
    }
}

// An element written over a row of any length.
pub(crate) fn written(heap: Global, row: &str, over: &str) -> Result<String, Unanswered> {
    let element = element_of(heap, row)?;
    let mut place = bytes_of(heap, over)?;
    let came = element.write(&mut place);
    Ok(RowAfter(came, "row", &place).to_string(heap)?)
}

// One element: read, turned and scaled.
pub(crate) fn alone(
    heap: Global,
    row: &str,
    turn: &str,
    scale: &str,
) -> Result<String, Unanswered> {
    let element = element_of(heap, row)?;
    let turn = number(turn);
    let same = Shown(element);
    let turned = Shown(element.turned(turn));
    let scaled = Shown(element.scaled(number(scale)));
    let digit = element.digit(turn);
    Ok(format!(in heap; "read{same} turned{turned} scaled{scaled} digit {digit}")?)
}

// The element of six numbers of a row, from a place on.
pub(crate) fn cut(heap: Global, row: &str, place: &str) -> Result<String, AllocError> {
    let element = Element::read_at(&bytes_of(heap, row)?, number(place));
    format!(in heap; "six{}", Shown(element))
}

// The element of six numbers; a row that is too short has none.
pub(crate) fn reduced(heap: Global, row: &str) -> Result<String, Unanswered> {
    let row = bytes_of(heap, row)?;
    match row.as_slice() {
        [a, b, c, d, e, f, ..] => {
            let element = Element::from([*a, *b, *c, *d, *e, *f]);
            Ok(format!(in heap; "modulo{}", Shown(element))?)
        }
        _ => Err(Unanswered::Unclear("no six numbers")),
    }
}

// Two elements: their sum, their product, and whether they are the same.
pub(crate) fn together(heap: Global, one: &str, two: &str) -> Result<String, Unanswered> {
    let first = element_of(heap, one)?;
    let second = element_of(heap, two)?;
    let sum = Shown(first + second);
    let product = Shown(first * second);
    let same = first == second;
    Ok(format!(in heap; "sum{sum} product{product} same {same}")?)
}

// The product of two vectors.
pub(crate) fn multiplied(heap: Global, one: &str, two: &str) -> Result<String, Unanswered> {
    let product = vector_product(&bytes_of(heap, one)?, &bytes_of(heap, two)?)?;
    Ok(format!(in heap; "product {product}")?)
}

// A tape drawn from random bytes, over what it held before.
pub(crate) fn drawn(heap: Global, bytes: &str, tape: &str) -> Result<String, AllocError> {
    let mut row = bytes_of(heap, tape)?;
    let came = draw(&bytes_of(heap, bytes)?, &mut row);
    RowAfter(came, "tape", &row).to_string(heap)
}
