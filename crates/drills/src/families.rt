// A paragraph of the input: its first line makes a family, and the lines after it are drills with that family.
use crate::desk::{Desk, Ended};
use crate::lines::{all_drilled, printed};
use books::Book;
use family::{Family, FirstPart, UnitFamily};
use notation::{Unanswered, bytes_of, number};
use std::alloc::{AllocError, Global};
use std::str::Lines;
use words::Words;

// Goes through a paragraph.
pub(crate) fn paragraph(rt: &HostRuntime, part: &str, desk: Desk) -> Result<Desk, Ended> {
    let mut lines = part.lines();
    let first = lines.next().unwrap_or("");
    let words: Result<Vec<&str>, AllocError> = first.split(' ').collect(rt.alloc());
    match words {
        Ok(words) => chosen(rt, &words, lines, desk),
        // by hand: a `?` would drop the desk, and a lookup that waits cannot be dropped
        Err(error) => printed(rt, (desk, Err(error.into()))),
    }
}

// The drills of the lines, with the family that the words make.
fn chosen(rt: &HostRuntime, words: &[&str], lines: Lines<'_>, desk: Desk) -> Result<Desk, Ended> {
    let heap = rt.alloc();
    match words {
        ["unit", n] => with(rt, unit(n), lines, desk),
        ["words", h, q] => with(rt, words_of(h, q), lines, desk),
        ["book", row] => with(rt, book(heap, row), lines, desk),
        ["first", m, "unit", n] => with(rt, first(m, unit(n)), lines, desk),
        ["first", m, "words", h, q] => with(rt, first(m, words_of(h, q)), lines, desk),
        ["first", m, "book", row] => with(rt, first(m, book(heap, row)), lines, desk),
        ["first", l, "first", m, "words", h, q] => {
            with(rt, first(l, first(m, words_of(h, q))), lines, desk)
        }
        _ => printed(rt, (desk, Err(Unanswered::Unclear("no such family")))),
    }
}

fn unit(n: &str) -> Result<UnitFamily, Unanswered> {
    Ok(UnitFamily::new(number(n))?)
}

fn words_of(h: &str, q: &str) -> Result<Words, Unanswered> {
    Ok(Words::new(number(h), number(q))?)
}

fn book(heap: Global, row: &str) -> Result<Book, Unanswered> {
    Ok(Book::try_from(bytes_of(heap, row)?)?)
}

fn first<F: Family + Drop>(
    m: &str,
    whole: Result<F, Unanswered>,
) -> Result<FirstPart<F>, Unanswered> {
    Ok(FirstPart::new(whole?, number(m))?)
}

// Prints the family's sizes and goes through the lines, or prints why there is no family, and passes the lines over.
fn with<F: Family + Drop>(
    rt: &HostRuntime,
    made: Result<F, Unanswered>,
    lines: Lines<'_>,
    desk: Desk,
) -> Result<Desk, Ended> {
    match made {
        Ok(family) => {
            let desk = printed(rt, (desk, sizes(rt.alloc(), &family)))?;
            all_drilled(rt, &family, lines, desk)
        }
        // no `?` here either: it is told, and the paragraph ends without an error
        Err(stop) => printed(rt, (desk, Err(stop))),
    }
}

// The count and the dimension. (As in `trials`: a line that a function for both would not shorten.)
fn sizes<F: Family>(heap: Global, family: &F) -> Result<String, Unanswered> {
    Ok(format!(in heap; "count {} dimension {}", family.count(), family.dimension())?)
}
