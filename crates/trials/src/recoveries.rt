// Trials of recovery: four elements weighed, an entry read, and two sheets taken through every step.
use crate::elements::{Shown, element_of};
use family::Family;
use notation::{Unanswered, bytes_of};
use scheme::{found, read_entry, sheets_weighed, slope, value};
use std::alloc::{AllocError, Global};
use std::fmt;

// An entry that was read, or that there is none.
#[derive(Clone, Copy)]
struct EntryRead(Option<u8>);

impl fmt::Display for EntryRead {
    fn fmt<W: fmt::Write>(&self, f: &mut fmt::Formatter<W>) -> fmt::Result {
        match self.0 {
            Some(entry) => write!(f, "entry {entry}"),
            None => f.write_str("at odds"),
        }
    }
}

// Four elements, weighed.
pub(crate) fn weighed(heap: Global, four: &[&str]) -> Result<String, Unanswered> {
    let [y1, y2, y3, y4] = four else {
        return Err(Unanswered::Unclear("no four elements"));
    };
    let w = scheme::weighed(
        element_of(heap, y1)?,
        element_of(heap, y2)?,
        element_of(heap, y3)?,
        element_of(heap, y4)?,
    );
    Ok(format!(in heap; "weighed{}", Shown(w))?)
}

// The entry that an element comes from.
pub(crate) fn entry(heap: Global, x: &str) -> Result<String, Unanswered> {
    let x = element_of(heap, x)?;
    Ok(format!(in heap; "{}", EntryRead(read_entry(&x)))?)
}

// Two rows as sheets, for a position and a shift: what they come to, step by step.
pub(crate) fn recovered<F: Family>(
    heap: Global,
    family: &F,
    t: usize,
    shift: u8,
    one: &str,
    two: &str,
) -> Result<String, AllocError> {
    let one = bytes_of(heap, one)?;
    let two = bytes_of(heap, two)?;
    let y1 = Shown(value(&one));
    let y2 = Shown(slope(family, t, &one));
    let y3 = Shown(value(&two));
    let y4 = Shown(slope(family, t, &two));
    let w = Shown(sheets_weighed(family, t, &one, &two));
    let x = found(family, t, shift, &one, &two);
    let read = EntryRead(read_entry(&x));
    format!(in heap; "y{y1} y{y2} y{y3} y{y4} w{w} x{} {read}", Shown(x))
}
