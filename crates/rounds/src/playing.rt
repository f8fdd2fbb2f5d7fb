// The whole round: a request, an answer from each host, and the recovery.
ghost use Rattle.std.specs.Prelude.{◌≡◌, ℕ, ◌+◌, ◌*◌, ◌<◌, length, Some, None, Ok, Err};
ghost use Rattle.faults.specs.declared.Fault.{Fault};
ghost use Rattle.scheme.specs.Answers.{Query, sheet_size, sheet_of};
ghost use Rattle.scheme.specs.Runs.{declined, Step, Run};
ghost use Rattle.scheme.specs.Sessions.{after_request, after_recovery};
ghost use Rattle.session.specs.Calls.{read_by};
ghost use Rattle.session.specs.States.{ready_session, ready_state, waiting_session};
ghost use Rattle.rounds.specs.Lent.{before, after};
ghost use Rattle.rounds.specs.Lookups.{request_of, request_refusal, both_calls, both_shown};
ghost use Rattle.rounds.specs.Rounds.{handed, round_fault, played, read_from, carried, with_carried};

use crate::checking::check_round;
use crate::rows::{Reading, Rows};
use family::Family;
use faults::Fault;
use host::Host;
use session::{Ready, Waiting};

// Zeroes a sheet and lets a host answer a query into it.
fn ask<F: Family, H: Host>(host: &H, family: &F, query: &[u8], sheet: &mut [u8])
    requires counted { (H.Host.holding host.now).count ≡ (F.Family.vectors family.now).count }
    requires query { Query (F.Family.vectors family.now) query.now }
    requires long { length sheet.old ≡ sheet_size (F.Family.vectors family.now).dim }
    ensures { sheet.new ≡ sheet_of (F.Family.vectors family.now) (H.Host.holding host.now).table query.now }
{
    sheet.fill(0);
    host.answer(family, query, sheet).unwrap();
}

// Recovers from both sheets. An entry goes with the digits carried.
fn read<F: Family>(
    waiting: Waiting,
    family: &F,
    one: &[u8],
    two: &[u8],
    carried: usize,
) -> (Ready, Result<Reading, Fault>)
    ensures reading { result.1 ≡ with_carried carried (read_by waiting (F.Family.vectors family.now) one.now two.now) }
    ensures after { ready_session result.0
        ≡ after_recovery (read_by waiting (F.Family.vectors family.now) one.now two.now) (waiting_session waiting) }
{
    let (session, outcome) = waiting.recover(family, one, two);
    (session, outcome.map(|entry| Reading { entry, carried }))
}

// A whole lookup: a request for a position, each host's answer to its query into a zeroed sheet, and the recovery. It gives the
// entry, with how many digits the rows carried each way. What a request or a host would refuse is refused before a tape digit is
// taken or a byte written, and the session comes back as it was. Where the sheets are at odds, the rows stay written, and the
// lookup counts as unread. (Loose parameters, and no struct of them with methods: each caller would make one for a single call, and
// the clauses would reach every part of it by a longer name. Each clause says first what r is, since it sees no other's names.)
pub fn round<F: Family, A: Host, B: Host>(
    session: Ready,
    family: &F,
    first_host: &A,
    second_host: &B,
    position: usize,
    rows: Rows<'_>,
) -> (Ready, Result<Reading, Fault>)
    ensures refused { let r = handed session (F.Family.vectors family.now) (A.Host.holding first_host.now)
        (B.Host.holding second_host.now) position rows.entry in
        (e : Fault) → round_fault r ≡ Some e → (result.0 ≡ session) × (result.1 ≡ Err e) × (after rows.exit ≡ before rows.entry) }
    ensures declined { let r = handed session (F.Family.vectors family.now) (A.Host.holding first_host.now)
        (B.Host.holding second_host.now) position rows.entry in
        (e : Fault) → round_fault r ≡ Some e → request_refusal r ≡ Some e →
        Step (ready_state session) (request_of r) (declined e) (ready_state result.0) }
    ensures played { let r = handed session (F.Family.vectors family.now) (A.Host.holding first_host.now)
        (B.Host.holding second_host.now) position rows.entry in
        round_fault r ≡ None → (after rows.exit ≡ played r)
        × (result.1 ≡ with_carried (carried (played r)) (read_from r (played r)))
        × (ready_session result.0 ≡ after_recovery (read_from r (played r)) (after_request r.session)) }
    ensures counted { let r = handed session (F.Family.vectors family.now) (A.Host.holding first_host.now)
        (B.Host.holding second_host.now) position rows.entry in
        round_fault r ≡ None → carried (played r) ≡ 14 * r.family.dim + 12 }
    ensures run { let r = handed session (F.Family.vectors family.now) (A.Host.holding first_host.now)
        (B.Host.holding second_host.now) position rows.entry in
        round_fault r ≡ None →
        Run (ready_state session) (both_calls r (after rows.exit)) (both_shown (after rows.exit) result.1) (ready_state result.0) }
    ensures entry { let r = handed session (F.Family.vectors family.now) (A.Host.holding first_host.now)
        (B.Host.holding second_host.now) position rows.entry in
        round_fault r ≡ None → ((i : ℕ) → i < r.family.count → r.first_host.table i ≡ r.second_host.table i) →
        result.1 ≡ Ok (record { entry = r.first_host.table r.position; carried = 14 * r.family.dim + 12 }) }
{
    // by hand, since `?` hands no session back
    if let Err(fault) = check_round(&session, family, first_host, second_host, position, &rows) {
        return (session, Err(fault));
    }
    let Rows {
        first_query,
        second_query,
        first_sheet,
        second_sheet,
    } = rows;
    let carried = first_query.len() + second_query.len() + first_sheet.len() + second_sheet.len();
    let waiting = session
        .request(family, position, first_query, second_query)
        .unwrap();
    ask(first_host, family, first_query, first_sheet);
    ask(second_host, family, second_query, second_sheet);
    // named first: where a call is what is returned, a proof knows nothing of the rows any more
    let (session, reading) = read(waiting, family, first_sheet, second_sheet, carried);
    (session, reading)
}
