// Drills that move a session on: an opening, a request, a recovery and a whole round.
use crate::desk::{Desk, Pair, Seen};
use crate::parts::{host_of, parts_of};
use family::Family;
use faults::Fault;
use host::Host;
use notation::{RefusalLine, Unanswered, bytes_of, number};
use scheme::sheet_size;
use session::{Ready, Refused, Waiting};
use std::alloc::Global;

// A text that says that a call was taken.
pub(crate) fn said(heap: Global, text: &str) -> Result<String, Unanswered> {
    Ok(String::from_str(heap, text)?)
}

// A session on a tape.
pub(crate) fn opened<F: Family>(heap: Global, family: &F, tape: &str) -> Result<Ready, Unanswered> {
    Ok(Ready::open(family, bytes_of(heap, tape)?)?)
}

// Whether a request would be taken.
pub(crate) fn check<F: Family>(
    heap: Global,
    family: &F,
    session: &Ready,
    [t, first, second]: [&str; 3],
) -> Result<String, Unanswered> {
    let rows = Pair::unwritten(heap, first, second)?;
    session.check_request(family, number(t), &rows.first, &rows.second)?;
    said(heap, "would be taken")
}

// Whether a session takes the family.
pub(crate) fn fits<F: Family>(
    heap: Global,
    family: &F,
    session: &Ready,
) -> Result<String, Unanswered> {
    session.check_family(family)?;
    said(heap, "fits")
}

// A request, and what its rows then hold.
pub(crate) fn request<F: Family>(
    heap: Global,
    family: &F,
    session: Ready,
    t: usize,
    mut rows: Pair,
) -> Seen {
    match session.request(family, t, &mut rows.first, &mut rows.second) {
        Ok(waiting) => {
            let text = taken(heap, &rows);
            (Desk::Waiting(waiting, rows), text)
        }
        Err(Refused { session, fault }) => (Desk::Ready(session), declined(heap, fault, &rows)),
    }
}

fn taken(heap: Global, rows: &Pair) -> Result<String, Unanswered> {
    Ok(format!(in heap; "taken queries{rows}")?)
}

fn declined(heap: Global, fault: Fault, rows: &Pair) -> Result<String, Unanswered> {
    Ok(format!(in heap; "{} queries{rows}", RefusalLine(fault))?)
}

// A recovery from two sheets.
pub(crate) fn recover<F: Family>(
    heap: Global,
    family: &F,
    waiting: Waiting,
    sheets: &Pair,
) -> Seen {
    let (session, came) = waiting.recover(family, &sheets.first, &sheets.second);
    (Desk::Ready(session), entry(heap, came))
}

fn entry(heap: Global, came: Result<u8, Fault>) -> Result<String, Unanswered> {
    let entry = came?;
    Ok(format!(in heap; "entry {entry}")?)
}

// Two rows as sheets.
pub(crate) fn sheets_of(heap: Global, first: &str, second: &str) -> Result<Pair, Unanswered> {
    Ok(Pair {
        first: bytes_of(heap, first)?,
        second: bytes_of(heap, second)?,
    })
}

// The sheets that two hosts answer to a lookup's queries.
pub(crate) fn sheets_by<F: Family>(
    heap: Global,
    family: &F,
    queries: &Pair,
    [one, two]: [&str; 2],
) -> Result<Pair, Unanswered> {
    let (one, two) = (parts_of(heap, one)?, parts_of(heap, two)?);
    let (one, two) = (host_of(&one)?, host_of(&two)?);
    let size = sheet_size(family);
    let mut sheets = Pair {
        first: vec![in heap; 0; size]?,
        second: vec![in heap; 0; size]?,
    };
    one.answer(family, &queries.first, &mut sheets.first)?;
    two.answer(family, &queries.second, &mut sheets.second)?;
    Ok(sheets)
}
