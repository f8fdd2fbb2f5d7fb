// Opening a session.
ghost use Rattle.std.specs.Prelude.{◌≡◌, Some, None, MatchResult, OnOk};
ghost use Rattle.digits.specs.Rows.{Digits};
ghost use Rattle.scheme.specs.Sessions.{opened, opening_fault};
ghost use Rattle.scheme.specs.Law.{Recovers, Hides};

use crate::states::{Kept, Ready};
use digits::check_digits;
use family::Family;
use faults::Fault;

impl Ready {
    ghost use Rattle.session.specs.States.{ready_session};

    // A session on a family and a tape, ready at the tape's first digit. A tape that holds a byte above 5 is refused.
    pub fn open<F: Family>(family: &F, tape: Vec<u8>) -> Result<Ready, Fault>
        ensures opens { MatchResult result
            (λ s. (opening_fault tape.items ≡ None) × (ready_session s ≡ opened (F.Family.vectors family.now) tape.items))
            (λ e. opening_fault tape.items ≡ Some e) }
        ensures digits { OnOk result (Digits tape.items) }
        ensures recovers { Recovers (F.Family.vectors family.now) }
        ensures hides { Hides (F.Family.vectors family.now) }
    {
        check_digits(tape.as_slice())?;
        Ok(Ready {
            kept: Kept {
                count: family.count(),
                dimension: family.dimension(),
                tape,
                place: 0,
                taken: 0,
                read: 0,
                unread: 0,
            },
        })
    }
}
