// The states of a session: it is ready for a request, or a lookup of it waits for two sheets.
ghost use Rattle.std.specs.Prelude.{◌≡◌, ◌+◌, ◌*◌, ◌≤◌, vec_len, IsTrue};
ghost use Rattle.digits.specs.Rows.{Digits};

use faults::Fault;

mod counting;
mod ending;
mod opening;
mod requesting;
mod telling;

// What a session keeps: its family's count and dimension, its tape (the client's randomness) with the place up to which it is
// used, and how many requests were taken, how many lookups were read, and how many ended unread. (Three numbers, and no `Counters`: each
// is moved on by itself, and what the types below say of them names them one by one.)
#[derive(Drop)]
struct Kept {
    count: usize,
    dimension: usize,
    tape: Vec<u8>,
    place: usize,
    taken: usize,
    read: usize,
    unread: usize,
    // all of the tape are digits
    ghost digits: { Digits tape.items },
    // a request takes one digit at least, so no more are taken than the tape has digits
    ghost wide: { 1 ≤ dimension },
    ghost within: { place ≤ vec_len tape },
    // each request that was taken has moved the place on by a query's digits, and nothing else has
    ghost stepped: { place ≡ taken * dimension },
}

// A session that is ready: each lookup that it took was read or ended unread.
#[derive(Drop)]
pub struct Ready {
    kept: Kept,
    ghost ended: { kept.taken ≡ kept.read + kept.unread },
}

// A session of which a lookup waits. It may not be let go: `recover` or `abandon` takes it and gives the ready session back.
pub struct Waiting {
    kept: Kept,
    lookup: Lookup,
    ghost pending: { kept.taken ≡ kept.read + kept.unread + 1 },
}

// A lookup that was requested: for which position, with which shift, and whether it was recovered or abandoned since. (That it
// may not be dropped at all would refuse the same programs; the mark makes it a fact that they lack.)
struct Lookup {
    position: usize,
    shift: u8,
    spent: bool,
}

// A request that was refused: the session, as it was, and the reason.
#[derive(Drop)]
pub struct Refused {
    pub session: Ready,
    pub fault: Fault,
}

// How many requests a session took, how many lookups were read, and how many ended unread.
#[derive(Clone, Copy, PartialEq, Eq)]
pub struct Counters {
    pub taken: usize,
    pub read: usize,
    pub unread: usize,
}

// The reason alone, for a caller who lets the session go.
impl From<Refused> for Fault {
    ghost from_gives = { λ refused fault. fault ≡ refused.fault };

    fn from(refused: Refused) -> Fault {
        refused.fault
    }
}

impl Waiting {
    // Takes the lookup for spent, and gives what the session keeps.
    fn spend(self) -> Kept
        ensures { result ≡ self.kept }
    {
        let Waiting { kept, mut lookup } = self;
        lookup.spent = true;
        kept
    }
}

// Only a lookup that is spent may be let go, and nothing but `spend` makes one so. Of a session that waits no contract promises it: so
// the checker refuses a program in which a lookup is neither recovered nor abandoned.
impl Drop for Lookup {
    fn drop(self)
        requires { IsTrue self.spent }
    {
        let Lookup {
            position: _,
            shift: _,
            spent: _,
        } = self;
    }
}

impl Drop for Waiting {
    ghost use Rattle.session.specs.States.{Spent};

    fn drop(self)
        requires { Spent self }
    {
        let Waiting { kept: _, lookup: _ } = self;
    }
}
