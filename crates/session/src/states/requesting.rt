// Requests: a ready session's next lookup.
ghost use Rattle.std.specs.Prelude.{◌≡◌, Some, None, MatchResult, IfOk, length};
ghost use Rattle.scheme.specs.Sessions.{next_digits, family_fault, after_request};
ghost use Rattle.scheme.specs.Queries.{second_query, shift};
ghost use Rattle.scheme.specs.Runs.{waiting, request, Step};

use crate::queries::write_queries;
use crate::states::{Lookup, Ready, Refused, Waiting};
use digits::{check_below, check_length};
use family::Family;
use faults::{Fault, Layer};

impl Ready {
    ghost use Rattle.session.specs.States.{ready_session, ready_state, waiting_state, Pending};
    ghost use Rattle.session.specs.Calls.{refusal, request_shown, request_leads};

    // What any call would refuse of a family: another count than the session's, then another dimension.
    pub fn check_family<F: Family>(&self, family: &F) -> Result<(), Fault>
        ensures { MatchResult result
            (λ _. family_fault (ready_session self.now).count (ready_session self.now).dim (F.Family.vectors family.now) ≡ None)
            (λ e. family_fault (ready_session self.now).count (ready_session self.now).dim (F.Family.vectors family.now) ≡ Some e) }
    {
        self.kept.check_family(family)
    }

    // What a request would be refused for. The session stays where it is.
    pub fn check_request<F: Family>(
        &self,
        family: &F,
        position: usize,
        first: &[u8],
        second: &[u8],
    ) -> Result<(), Fault>
        ensures { MatchResult result
            (λ _. refusal (ready_session self.now) (F.Family.vectors family.now) position
            (length first.now) (length second.now) ≡ None)
            (λ e. refusal (ready_session self.now) (F.Family.vectors family.now) position
            (length first.now) (length second.now) ≡ Some e) }
    {
        self.check_family(family)?;
        check_length(first, self.kept.dimension)?;
        check_length(second, self.kept.dimension)?;
        check_below(Layer::Session, self.kept.count, position)?;
        self.kept.check_left()
    }

    // Writes the two queries of a lookup for a position, with the next digits of the tape. The session then waits. Refused, it
    // comes back as it was, and nothing is written. (The two rows come one by one: of a vector that a caller lends by way of a struct a
    // proof would know nothing afterwards.)
    #[tactic(auto, using(scheme::specs::Runs::declines))]
    pub fn request<F: Family>(
        self,
        family: &F,
        position: usize,
        first: &mut [u8],
        second: &mut [u8],
    ) -> Result<Waiting, Refused>
        ensures cases { MatchResult result
            (λ w. (refusal (ready_session self) (F.Family.vectors family.now) position (length first.old) (length second.old) ≡ None)
            × (first.new ≡ next_digits (ready_session self))
            × (second.new ≡ second_query (F.Family.vectors family.now) position (next_digits (ready_session self)))
            × (waiting_state w ≡ waiting (after_request (ready_session self)) position
            (shift (F.Family.vectors family.now) position (next_digits (ready_session self)))))
            (λ r.
            (refusal (ready_session self) (F.Family.vectors family.now) position (length first.old) (length second.old) ≡ Some r.fault)
            × (r.session ≡ self) × (first.new ≡ first.old) × (second.new ≡ second.old)) }
        ensures step { Step (ready_state self)
            (request (F.Family.vectors family.now) position (length first.old) (length second.old))
            (request_shown result first.new second.new) (request_leads result) }
        ensures pending { IfOk result Pending }
    {
        // by hand: `?` makes a refusal of the fault alone, and this one hands the session back
        if let Err(fault) = self.check_request(family, position, first, second) {
            return Err(Refused {
                session: self,
                fault,
            });
        }
        let Ready { mut kept } = self;
        let shift = write_queries(family, position, kept.next_digits(), first, second);
        kept.advance();
        Ok(Waiting {
            kept,
            lookup: Lookup {
                position,
                shift,
                spent: false,
            },
        })
    }
}
