// Hosts as words write them: single hosts with a plus between two, each with colons between its parts.
use crate::hosts::Any;
use crate::single::Single;
use host::{ChangeHost, Dense, Sum};
use notation::{Unanswered, bytes_of, number};
use std::alloc::{AllocError, Global};

// What a single host is made of: its table as a row, or a change host.
#[derive(Drop)]
pub(crate) enum Part {
    Row(Vec<u8>),
    Changes(ChangeHost),
}

// The parts that a word writes. Their host is made here only to try them, so that of two words the first is tried whole before the second
// is read, and once more by who asks: it borrows the parts.
pub(crate) fn parts_of(heap: Global, word: &str) -> Result<Vec<Part>, Unanswered> {
    let parts: Vec<Part> = word
        .split('+')
        .map(|single| part_of(heap, single))
        .try_collect(heap)?;
    let _ = host_of(&parts)?;
    Ok(parts)
}

// One part. It is refused here already, so that the first of several counts.
fn part_of(heap: Global, word: &str) -> Result<Part, Unanswered> {
    let words: Vec<&str> = word.split(':').collect(heap)?;
    match words.as_slice() {
        ["d", row] => dense(bytes_of(heap, row)?),
        ["r", n, row] => dense(repeated(heap, &bytes_of(heap, row)?, number(n))?),
        ["c", n] => Ok(Part::Changes(ChangeHost::new(number(n))?)),
        ["c", n, settings] => {
            let mut host = ChangeHost::new(number(n))?;
            for setting in settings.split(',') {
                set(&mut host, setting)?;
            }
            Ok(Part::Changes(host))
        }
        _ => Err(Unanswered::Unclear("no such host")),
    }
}

// The part of a row that is a table. The host is made here only to try the row, and once more by `host`: it borrows its row, so no part
// can hold both.
fn dense(row: Vec<u8>) -> Result<Part, Unanswered> {
    let _ = Dense::new(&row)?;
    Ok(Part::Row(row))
}

// The row of n bytes that repeats a row.
fn repeated(heap: Global, row: &[u8], n: usize) -> Result<Vec<u8>, AllocError> {
    row.iter().copied().cycle().take(n).collect(heap)
}

// Sets a change, written as a position, `=` and a digit. With no digit it is 255.
pub(crate) fn set(host: &mut ChangeHost, setting: &str) -> Result<(), Unanswered> {
    let (position, digit) = setting.split_once('=').unwrap_or((setting, ""));
    Ok(host.set(number(position), number(digit))?)
}

impl Part {
    // The host of this part.
    fn host(&self) -> Result<Single<'_>, Unanswered> {
        match self {
            Part::Row(row) => Ok(Single::Dense(Dense::new(row)?)),
            Part::Changes(host) => Ok(Single::Change(*host)),
        }
    }
}

// The host of some parts: one of them, or their sum.
pub(crate) fn host_of(parts: &[Part]) -> Result<Any<'_>, Unanswered> {
    match parts {
        [one] => Ok(Any::One(one.host()?)),
        [one, two] => Ok(Any::Two(Sum::new(one.host()?, two.host()?)?)),
        [one, two, three] => {
            let first = Sum::new(one.host()?, two.host()?)?;
            Ok(Any::Three(Sum::new(first, three.host()?)?))
        }
        [one, two, three, four] => {
            let first = Sum::new(one.host()?, two.host()?)?;
            let second = Sum::new(three.host()?, four.host()?)?;
            Ok(Any::Four(Sum::new(first, second)?))
        }
        _ => Err(Unanswered::Unclear("no such host")),
    }
}
