// What a session keeps, as its calls move it on.
ghost use Rattle.std.specs.Prelude.{◌≡◌, ◌+◌, ◌*◌, ◌≤◌, Some, None, MatchResult, vec_len};
ghost use Rattle.scheme.specs.Sessions.{digits_left, next_digits, family_fault, tape_fault};
ghost use Rattle.scheme.specs.Sessions.{after_request, after_reading, after_loss};

use crate::states::{Counters, Kept};
use digits::check_equal;
use family::Family;
use faults::{Fault, Layer};

impl Kept {
    ghost use Rattle.session.specs.States.{kept_session, counters_of};

    // How many tape digits are not used yet.
    pub(crate) fn left(&self) -> usize
        ensures { result ≡ digits_left (kept_session self.now) }
    {
        self.tape.len() - self.place
    }

    // How many requests were taken, how many lookups were read, and how many ended unread.
    pub(crate) fn counters(&self) -> Counters
        ensures { result ≡ counters_of (kept_session self.now) }
    {
        Counters {
            taken: self.taken,
            read: self.read,
            unread: self.unread,
        }
    }

    // Refuses a family of another count or dimension.
    pub(crate) fn check_family<F: Family>(&self, family: &F) -> Result<(), Fault>
        ensures { MatchResult result
            (λ _. family_fault (kept_session self.now).count (kept_session self.now).dim (F.Family.vectors family.now) ≡ None)
            (λ e. family_fault (kept_session self.now).count (kept_session self.now).dim (F.Family.vectors family.now) ≡ Some e) }
    {
        check_equal(Layer::Session, self.count, family.count())?;
        check_equal(Layer::Session, self.dimension, family.dimension())
    }

    // Refuses where fewer tape digits are left than a query has.
    pub(crate) fn check_left(&self) -> Result<(), Fault>
        ensures { MatchResult result
            (λ _. tape_fault (kept_session self.now).dim (digits_left (kept_session self.now)) ≡ None)
            (λ e. tape_fault (kept_session self.now).dim (digits_left (kept_session self.now)) ≡ Some e) }
    {
        let left = self.left();
        if self.dimension <= left {
            Ok(())
        } else {
            Err(Fault::spent(left))
        }
    }

    // The next tape digits, as many as a query has.
    pub(crate) fn next_digits(&self) -> &[u8]
        requires { self.now.place + self.now.dimension ≤ vec_len self.now.tape }
        ensures { result.now ≡ next_digits (kept_session self.now) }
    {
        &self.tape.as_slice()[self.place..self.place + self.dimension]
    }

    // A request that was taken: the tape's place is a query's digits further.
    pub(crate) fn advance(&mut self)
        requires { self.old.place + self.old.dimension ≤ vec_len self.old.tape }
        ensures { kept_session self.new ≡ after_request (kept_session self.old) }
    {
        self.place += self.dimension;
        self.taken += 1;
    }

    // A lookup that was read. (Two functions, and no flag for which counter: so a call says which.)
    pub(crate) fn end_read(&mut self)
        requires { self.old.read + self.old.unread + 1 ≤ self.old.taken }
        ensures { kept_session self.new ≡ after_reading (kept_session self.old) }
    {
        self.read += 1;
    }

    // A lookup that ended unread.
    pub(crate) fn end_unread(&mut self)
        requires { self.old.read + self.old.unread + 1 ≤ self.old.taken }
        ensures { kept_session self.new ≡ after_loss (kept_session self.old) }
    {
        self.unread += 1;
    }
}
