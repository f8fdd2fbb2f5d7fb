// Which trial a line asks for.
use crate::elements::{alone, cut, drawn, multiplied, reduced, together, written};
use crate::families::ask;
use crate::recoveries::{entry, recovered, weighed};
use crate::reports::ReportLine;
use books::{Book, examine};
use family::{FirstPart, UnitFamily};
use faults::Fault;
use notation::{Unanswered, bytes_of, number};
use std::alloc::Global;
use words::Words;

// What the trial that a line asks for finds.
pub(crate) fn tried(heap: Global, line: &str) -> Result<String, Unanswered> {
    let words: Vec<&str> = line.split(' ').collect(heap)?;
    let answer = match words.as_slice() {
        ["element", row, turn, scale] => alone(heap, row, turn, scale)?,
        ["write", row, over] => written(heap, row, over)?,
        ["elements", one, two] => together(heap, one, two)?,
        ["vectors", one, two] => multiplied(heap, one, two)?,
        ["draw", bytes, tape] => drawn(heap, bytes, tape)?,
        ["six", row, place] => cut(heap, row, place)?,
        ["modulo", row] => reduced(heap, row)?,
        ["weighed", four @ ..] => weighed(heap, four)?,
        ["entry", x] => entry(heap, x)?,
        ["recover", h, q, t, shift, one, two] => {
            let family = Words::new(number(h), number(q))?;
            recovered(heap, &family, number(t), number(shift), one, two)?
        }
        ["unit", n, rest @ ..] => ask(heap, &UnitFamily::new(number(n))?, rest)?,
        ["words", h, q, rest @ ..] => ask(heap, &Words::new(number(h), number(q))?, rest)?,
        ["first", m, h, q, rest @ ..] => {
            let whole = Words::new(number(h), number(q))?;
            ask(heap, &FirstPart::new(whole, number(m))?, rest)?
        }
        ["part", m, n, rest @ ..] => ask(heap, &part(number(m), number(n))?, rest)?,
        ["examine", bytes] => ReportLine(examine(&bytes_of(heap, bytes)?)).to_string(heap)?,
        ["book", bytes, rest @ ..] => ask(heap, &Book::try_from(bytes_of(heap, bytes)?)?, rest)?,
        _ => return Err(Unanswered::Unclear("no such trial")),
    };
    Ok(answer)
}

// The first m positions of the first n + 1 of the unit family of n + 2.
fn part(m: usize, n: usize) -> Result<FirstPart<FirstPart<UnitFamily>>, Fault> {
    let unit = UnitFamily::new(n.saturating_add(2))?;
    let whole = FirstPart::new(unit, n.saturating_add(1))?;
    FirstPart::new(whole, m)
}
