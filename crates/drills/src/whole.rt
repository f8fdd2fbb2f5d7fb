// Drills of a whole round.
use crate::desk::{Counted, Desk, Pair, Seen};
use crate::hosts::Any;
use crate::lookups::said;
use crate::parts::{Part, host_of, parts_of};
use family::Family;
use faults::Fault;
use notation::{RefusalLine, Unanswered, number};
use rounds::{Reading, Rows, check_round, round};
use session::Ready;
use std::alloc::Global;

// What a round is handed: a position, rows for two queries and two sheets, and what two hosts are made of. A method that lends the rows as
// `Rows` was tried: the borrow checker does not cover one that hands out several fields of a `&mut self`.
#[derive(Drop)]
pub(crate) struct Given {
    t: usize,
    queries: Pair,
    sheets: Pair,
    one: Vec<Part>,
    two: Vec<Part>,
}

// What the words of a line hand to a round: a position, four lengths and two hosts.
pub(crate) fn handed(
    heap: Global,
    [t, a, b, c, d, one, two]: [&str; 7],
) -> Result<Given, Unanswered> {
    Ok(Given {
        t: number(t),
        queries: Pair::unwritten(heap, a, b)?,
        sheets: Pair::unwritten(heap, c, d)?,
        one: parts_of(heap, one)?,
        two: parts_of(heap, two)?,
    })
}

// A round, and what its rows and the session's counters then are.
pub(crate) fn whole_round<F: Family>(
    heap: Global,
    family: &F,
    session: Ready,
    given: Given,
) -> Seen {
    let Given {
        t,
        queries,
        sheets,
        one,
        two,
    } = given;
    match hosts_of(&one, &two) {
        Ok((one, two)) => played(heap, family, session, t, queries, sheets, &one, &two),
        // by hand: the hosts borrow their parts, so what is read before cannot hold them, and a `?` would drop the session
        Err(stop) => (Desk::Ready(session), Err(stop)),
    }
}

// Whether a round would be taken, as far as its sheets are not at odds.
pub(crate) fn check_whole<F: Family>(
    heap: Global,
    family: &F,
    session: &Ready,
    given: Given,
) -> Result<String, Unanswered> {
    let Given {
        t,
        mut queries,
        mut sheets,
        one,
        two,
    } = given;
    let (one, two) = hosts_of(&one, &two)?;
    let rows = Rows {
        first_query: &mut queries.first,
        second_query: &mut queries.second,
        first_sheet: &mut sheets.first,
        second_sheet: &mut sheets.second,
    };
    check_round(session, family, &one, &two, t, &rows)?;
    said(heap, "would be taken")
}

fn hosts_of<'a>(one: &'a [Part], two: &'a [Part]) -> Result<(Any<'a>, Any<'a>), Unanswered> {
    Ok((host_of(one)?, host_of(two)?))
}

fn played<F: Family>(
    heap: Global,
    family: &F,
    session: Ready,
    t: usize,
    mut queries: Pair,
    mut sheets: Pair,
    one: &Any<'_>,
    two: &Any<'_>,
) -> Seen {
    let rows = Rows {
        first_query: &mut queries.first,
        second_query: &mut queries.second,
        first_sheet: &mut sheets.first,
        second_sheet: &mut sheets.second,
    };
    // the second host is lent once more: a host that is lent is a host
    let (session, came) = round(session, family, one, &two, t, rows);
    let counted = Counted(session.counters());
    let text = told(heap, came, &queries, &sheets, counted);
    (Desk::Ready(session), text)
}

fn told(
    heap: Global,
    came: Result<Reading, Fault>,
    queries: &Pair,
    sheets: &Pair,
    counted: Counted,
) -> Result<String, Unanswered> {
    match came {
        Ok(Reading { entry, carried }) => Ok(format!(in heap;
            "entry {entry} carried {carried} queries{queries} sheets{sheets} {counted}"
        )?),
        Err(fault) => {
            let refusal = RefusalLine(fault);
            Ok(format!(in heap; "{refusal} queries{queries} sheets{sheets} {counted}")?)
        }
    }
}
