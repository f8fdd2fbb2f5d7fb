// Calls in turn: what a program makes of a session's calls, one after the other, is a run by their contracts alone.

#![tactic(auto)]

ghost use Rattle.std.specs.Prelude.{◌≡◌, Some, None, MatchOption, MatchResult, [], ◌∷◌, length};
ghost use Rattle.scheme.specs.Sessions.{next_digits};
ghost use Rattle.scheme.specs.Queries.{second_query};
ghost use Rattle.scheme.specs.Runs.{recover, abandon, asked, declined, recovered, abandoned, Run};
ghost use Rattle.session.specs.States.{ready_session, ready_state};
ghost use Rattle.session.specs.Calls.{refusal};
ghost use Rattle.turns.specs.Turns.{asking, queries_shown};

pub mod first;

use family::Family;
use faults::Fault;
pub use first::first_lookup;
use session::{Ready, Refused};

// A lookup that is read: a request and, if it is taken, its recovery. (Here and below a contract tells the refused case in full, so that
// each is read by itself.)
#[tactic(auto, using(crate::proofs::Chains::one_call))]
pub fn look_up<F: Family>(
    ready: Ready,
    family: &F,
    position: usize,
    first: &mut [u8],
    second: &mut [u8],
    one: &[u8],
    two: &[u8],
) -> Result<(Ready, Result<u8, Fault>), Refused>
    ensures { MatchResult result
        (λ r. Run (ready_state ready)
        (asking (F.Family.vectors family.now) position first.old second.old
        ∷ recover (F.Family.vectors family.now) one.now two.now ∷ [])
        (asked first.new second.new ∷ recovered r.1 ∷ []) (ready_state r.0))
        (λ r. Run (ready_state ready)
        (asking (F.Family.vectors family.now) position first.old second.old ∷ [])
        (declined r.fault ∷ []) (ready_state r.session)
        × (first.new ≡ first.old) × (second.new ≡ second.old)) }
{
    let waiting = ready.request(family, position, first, second)?;
    Ok(waiting.recover(family, one, two))
}

// A lookup that is given up: a request and, if it is taken, its abandonment.
pub fn give_up<F: Family>(
    ready: Ready,
    family: &F,
    position: usize,
    first: &mut [u8],
    second: &mut [u8],
) -> Result<Ready, Refused>
    ensures { MatchResult result
        (λ r. Run (ready_state ready)
        (asking (F.Family.vectors family.now) position first.old second.old ∷ abandon ∷ [])
        (asked first.new second.new ∷ abandoned ∷ []) (ready_state r))
        (λ r. Run (ready_state ready)
        (asking (F.Family.vectors family.now) position first.old second.old ∷ [])
        (declined r.fault ∷ []) (ready_state r.session)
        × (first.new ≡ first.old) × (second.new ≡ second.old)) }
{
    let lookup = ready.request(family, position, first, second)?;
    Ok(lookup.abandon())
}

// Two lookups, the first read, the second given up; told are the first one's outcome, and what the second was refused for.
#[tactic(auto, using(crate::proofs::Chains::one_call))]
pub fn again<F: Family>(
    ready: Ready,
    family: &F,
    positions: (usize, usize),
    first: &mut [u8],
    second: &mut [u8],
    one: &[u8],
    two: &[u8],
) -> Result<(Ready, Result<u8, Fault>, Option<Fault>), Refused>
    ensures { MatchResult result
        (λ r. MatchOption r.2
        (Run (ready_state ready)
        (asking (F.Family.vectors family.now) positions.0 first.old second.old
        ∷ recover (F.Family.vectors family.now) one.now two.now
        ∷ asking (F.Family.vectors family.now) positions.1 first.old second.old ∷ abandon ∷ [])
        (queries_shown (ready_session ready) (F.Family.vectors family.now) positions.0 ∷ recovered r.1
        ∷ asked first.new second.new ∷ abandoned ∷ []) (ready_state r.0))
        (λ fault. Run (ready_state ready)
        (asking (F.Family.vectors family.now) positions.0 first.old second.old
        ∷ recover (F.Family.vectors family.now) one.now two.now
        ∷ asking (F.Family.vectors family.now) positions.1 first.old second.old ∷ [])
        (asked first.new second.new ∷ recovered r.1 ∷ declined fault ∷ []) (ready_state r.0)))
        (λ r. Run (ready_state ready)
        (asking (F.Family.vectors family.now) positions.0 first.old second.old ∷ [])
        (declined r.fault ∷ []) (ready_state r.session)
        × (first.new ≡ first.old) × (second.new ≡ second.old)) }
{
    let waiting = ready.request(family, positions.0, first, second)?;
    let (ready, outcome) = waiting.recover(family, one, two);
    match ready.request(family, positions.1, first, second) {
        Ok(waiting) => Ok((waiting.abandon(), outcome, None)),
        Err(Refused { session, fault }) => Ok((session, outcome, Some(fault))),
    }
}

// A session's last lookup, given up: its queries are written, and the session is closed.
pub fn ask_last<F: Family>(
    ready: Ready,
    family: &F,
    position: usize,
    first: &mut [u8],
    second: &mut [u8],
) -> Result<(), Fault>
    ensures { MatchResult result
        (λ _. (refusal (ready_session ready) (F.Family.vectors family.now) position (length first.old) (length second.old) ≡ None)
        × (first.new ≡ next_digits (ready_session ready))
        × (second.new ≡ second_query (F.Family.vectors family.now) position (next_digits (ready_session ready))))
        (λ e. (refusal (ready_session ready) (F.Family.vectors family.now) position (length first.old) (length second.old) ≡ Some e)
        × (first.new ≡ first.old) × (second.new ≡ second.old)) }
{
    let last = ready.request(family, position, first, second)?;
    let _ = last.abandon();
    Ok(())
}
