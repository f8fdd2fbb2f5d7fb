// A session's first lookup, from its opening to the entry, proved from what each call promises and from nothing else.
ghost use Rattle.std.specs.Prelude.{◌≡◌, ℕ, ◌<◌, Some, None, Ok, MatchResult};
ghost use Rattle.scheme.specs.Sessions.{unless};
ghost use Rattle.turns.specs.First.{four_rows, first_handed, host_fault, asked_sheet, both_fault, both_asked, first_fault, first_left, first_reading};

use family::Family;
use faults::Fault;
use host::Host;
use session::Ready;

// Zeroes a sheet and lets a host answer a query into it. (A round has the like, which unwraps the answer: it has checked before that
// nothing is refused.)
fn ask<F: Family, H: Host>(
    host: &H,
    family: &F,
    query: &[u8],
    sheet: &mut [u8],
) -> Result<(), Fault>
    ensures fault { MatchResult result
        (λ _. host_fault (F.Family.vectors family.now) (H.Host.holding host.now) query.now sheet.old ≡ None)
        (λ e. host_fault (F.Family.vectors family.now) (H.Host.holding host.now) query.now sheet.old ≡ Some e) }
    ensures sheet { sheet.new ≡ asked_sheet (F.Family.vectors family.now) (H.Host.holding host.now) query.now sheet.old }
{
    sheet.fill(0);
    host.answer(family, query, sheet)
}

// Both hosts' answers, or what the first that refuses has to say. (A function of its own, and no `and_then` in `first_lookup`: of a
// sheet that a closure wrote a proof would know nothing. Its rows are as many as two hosts have.)
fn ask_both<F: Family, A: Host, B: Host>(
    family: &F,
    first_host: &A,
    second_host: &B,
    first: &[u8],
    second: &[u8],
    one: &mut [u8],
    two: &mut [u8],
) -> Result<(), Fault>
    ensures fault { MatchResult result
        (λ _. both_fault (F.Family.vectors family.now) (A.Host.holding first_host.now) (B.Host.holding second_host.now)
        (four_rows first.now second.now one.old two.old) ≡ None)
        (λ e. both_fault (F.Family.vectors family.now) (A.Host.holding first_host.now) (B.Host.holding second_host.now)
        (four_rows first.now second.now one.old two.old) ≡ Some e) }
    ensures sheets { four_rows first.now second.now one.new two.new
        ≡ both_asked (F.Family.vectors family.now) (A.Host.holding first_host.now) (B.Host.holding second_host.now)
        (four_rows first.now second.now one.old two.old) }
{
    ask(first_host, family, first, one)?;
    ask(second_host, family, second, two)
}

// Opens a session, requests the entry at a position, has two hosts answer into zeroed sheets, and recovers. It stops at the first
// refusal, and what was written before it stays written. Where the hosts' tables agree, what is read is their entry. So calls that a
// program makes are the runs of which the law speaks, and the law, as `open` promises it, gives the entry. Its parameters are what
// such a program has at hand, and each goes to another call.
pub fn first_lookup<F: Family, A: Host, B: Host>(
    family: &F,
    first_host: &A,
    second_host: &B,
    tape: Vec<u8>,
    position: usize,
    first: &mut [u8],
    second: &mut [u8],
    one: &mut [u8],
    two: &mut [u8],
) -> Result<u8, Fault>
    ensures gives { let h = first_handed (F.Family.vectors family.now) (A.Host.holding first_host.now) (B.Host.holding second_host.now)
        tape.items position (four_rows first.old second.old one.old two.old) in
        result ≡ unless (first_fault h) (first_reading h) }
    ensures leaves { let h = first_handed (F.Family.vectors family.now) (A.Host.holding first_host.now) (B.Host.holding second_host.now)
        tape.items position (four_rows first.old second.old one.old two.old) in
        four_rows first.new second.new one.new two.new ≡ first_left h }
    ensures entry { let h = first_handed (F.Family.vectors family.now) (A.Host.holding first_host.now) (B.Host.holding second_host.now)
        tape.items position (four_rows first.old second.old one.old two.old) in
        ((i : ℕ) → i < h.family.count → h.first_host.table i ≡ h.second_host.table i) →
        result ≡ unless (first_fault h) (Ok (h.first_host.table h.position)) }
{
    let ready = Ready::open(family, tape)?;
    let waiting = ready.request(family, position, first, second)?;
    match ask_both(family, first_host, second_host, first, second, one, two) {
        Ok(()) => waiting.recover(family, one, two).1,
        Err(fault) => {
            let _ = waiting.abandon();
            Err(fault)
        }
    }
}
