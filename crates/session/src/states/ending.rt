// Ends of a lookup that waits: it is recovered or abandoned.
ghost use Rattle.std.specs.Prelude.{◌≡◌, MatchResult};
ghost use Rattle.scheme.specs.Sessions.{after_recovery, after_loss};
ghost use Rattle.scheme.specs.Runs.{recover, abandon, recovered, abandoned, Step};

use crate::recovering::read_sheets;
use crate::states::{Ready, Waiting};
use family::Family;
use faults::Fault;

impl Waiting {
    ghost use Rattle.session.specs.States.{ready_session, waiting_session, ready_state, waiting_state};
    ghost use Rattle.session.specs.Calls.{read_by};

    // The entry that two sheets come to, or why there is none.
    #[tactic(auto, using(crate::proofs::Sheets::other_outcome))]
    fn read<F: Family>(&self, family: &F, one: &[u8], two: &[u8]) -> Result<u8, Fault>
        ensures { result ≡ read_by self.now (F.Family.vectors family.now) one.now two.now }
    {
        self.kept.check_family(family)?;
        read_sheets(family, self.lookup.position, self.lookup.shift, one, two)
    }

    // Reads the entry from two sheets, or refuses. Either way the lookup is over, and the session is ready.
    #[tactic(auto, using(crate::proofs::Stepping::step_recovered))]
    pub fn recover<F: Family>(
        self,
        family: &F,
        one: &[u8],
        two: &[u8],
    ) -> (Ready, Result<u8, Fault>)
        ensures outcome { result.1 ≡ read_by self (F.Family.vectors family.now) one.now two.now }
        ensures after { ready_session result.0 ≡ after_recovery result.1 (waiting_session self) }
        ensures step { Step (waiting_state self)
            (recover (F.Family.vectors family.now) one.now two.now) (recovered result.1) (ready_state result.0) }
    {
        let outcome = self.read(family, one, two);
        let mut kept = self.spend();
        // by hand: which counter moves is said by a call of its own
        match outcome {
            Ok(_) => kept.end_read(),
            Err(_) => kept.end_unread(),
        }
        (Ready { kept }, outcome)
    }

    // Gives the lookup up.
    #[tactic(auto, using(crate::proofs::Stepping::step_abandoned))]
    pub fn abandon(self) -> Ready
        ensures after { ready_session result ≡ after_loss (waiting_session self) }
        ensures step { Step (waiting_state self) abandon abandoned (ready_state result) }
    {
        let mut kept = self.spend();
        kept.end_unread();
        Ready { kept }
    }
}
