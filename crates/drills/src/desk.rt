// The session of the drills, ready or waiting.
use crate::shortened::Shortened;
use family::UnitFamily;
use notation::{Unanswered, number};
use session::{Counters, Ready, Waiting};
use std::alloc::{AllocError, Global};
use std::fmt;

// Two rows: the queries of a lookup, or its sheets.
#[derive(Drop)]
pub(crate) struct Pair {
    pub(crate) first: Vec<u8>,
    pub(crate) second: Vec<u8>,
}

impl Pair {
    // Rows of the lengths that two words write, of a byte that is no digit, so that a place that was not written shows.
    pub(crate) fn unwritten(heap: Global, first: &str, second: &str) -> Result<Pair, AllocError> {
        Ok(Pair {
            first: vec![in heap; 9; number(first)]?,
            second: vec![in heap; 9; number(second)]?,
        })
    }
}

impl fmt::Display for Pair {
    fn fmt<W: fmt::Write>(&self, f: &mut fmt::Formatter<W>) -> fmt::Result {
        write!(
            f,
            "{} and{}",
            Shortened(&self.first),
            Shortened(&self.second)
        )
    }
}

// A session that is ready, or one of which a lookup waits, with that lookup's queries.
pub(crate) enum Desk {
    Ready(Ready),
    Waiting(Waiting, Pair),
}

// A session after a drill, and what the drill came to.
pub(crate) type Seen = (Desk, Result<String, Unanswered>);

// Why all drills end early, with the session as it then is: it may hold a lookup that waits, which cannot be dropped, so it goes along with
// the error, and `?` hands on both.
pub(crate) struct Ended {
    pub(crate) desk: Desk,
    pub(crate) error: anyhow::Error,
}

impl Desk {
    // At first it is ready, with a tape of no digits.
    pub(crate) fn at_first(heap: Global) -> Desk {
        let family = UnitFamily::new(1).unwrap();
        Desk::Ready(Ready::open(&family, Vec::new(heap)).unwrap())
    }

    // Ends the session; a lookup that waits is given up.
    pub(crate) fn close(self) {
        match self {
            Desk::Ready(session) => drop(session),
            Desk::Waiting(waiting, queries) => {
                drop(queries);
                drop(waiting.abandon());
            }
        }
    }
}

// The counters of a session.
#[derive(Clone, Copy)]
pub(crate) struct Counted(pub(crate) Counters);

impl fmt::Display for Counted {
    fn fmt<W: fmt::Write>(&self, f: &mut fmt::Formatter<W>) -> fmt::Result {
        let Counters {
            taken,
            read,
            unread,
        } = self.0;
        write!(f, "taken {taken} read {read} unread {unread}")
    }
}

// What a ready session tells of itself.
pub(crate) fn told(heap: Global, session: &Ready) -> Result<String, Unanswered> {
    let counters = Counted(session.counters());
    let left = session.digits_left();
    Ok(format!(in heap; "{counters} left {left}")?)
}

// What one tells of itself of which a lookup waits. (A function of its own: it tells a position too.)
pub(crate) fn told_waiting(heap: Global, waiting: &Waiting) -> Result<String, Unanswered> {
    let counters = Counted(waiting.counters());
    let left = waiting.digits_left();
    let position = waiting.position();
    Ok(format!(in heap; "{counters} left {left} waiting for {position}")?)
}
