// What a session tells of itself, ready or waiting: what it keeps, told by each of the two in its own words. (A trait for both would
// say no less, and its laws would come on top.)
ghost use Rattle.std.specs.Prelude.{◌≡◌, ◌+◌};
ghost use Rattle.scheme.specs.Sessions.{digits_left};

use crate::states::{Counters, Ready, Waiting};

impl Ready {
    ghost use Rattle.session.specs.States.{ready_session, counters_of};

    // How many requests were taken, how many lookups were read, and how many ended unread: the first is the sum of the others.
    pub fn counters(&self) -> Counters
        ensures numbers { result ≡ counters_of (ready_session self.now) }
        ensures adds_up { result.taken ≡ result.read + result.unread }
    {
        self.kept.counters()
    }

    // How many tape digits are not used yet.
    pub fn digits_left(&self) -> usize
        ensures { result ≡ digits_left (ready_session self.now) }
    {
        self.kept.left()
    }
}

impl Waiting {
    ghost use Rattle.session.specs.States.{waiting_session, position_of, counters_of};

    // The same while a lookup waits, which was taken and has not ended.
    pub fn counters(&self) -> Counters
        ensures numbers { result ≡ counters_of (waiting_session self.now) }
        ensures adds_up { result.taken ≡ result.read + result.unread + 1 }
    {
        self.kept.counters()
    }

    // How many tape digits are not used yet.
    pub fn digits_left(&self) -> usize
        ensures { result ≡ digits_left (waiting_session self.now) }
    {
        self.kept.left()
    }

    // The position that the lookup was requested for.
    pub fn position(&self) -> usize
        ensures { result ≡ position_of self.now }
    {
        self.lookup.position
    }
}
