// The lookup that an inquiry asks for.
ghost use Rattle.std.specs.Prelude.{◌≡◌, Some, None, MatchResult, length};
ghost use Rattle.scheme.specs.Answers.{sheet_size};
ghost use Rattle.session.specs.States.{ready_session};
ghost use Rattle.rounds.specs.Rounds.{round_fault};
ghost use Rattle.inquiry.specs.Findings.{findings, reading_of};
ghost use Rattle.inquiry.specs.Stops.{Finds};
ghost use Rattle.inquiry.specs.Replies.{round_with, inquiry_fault, findings_in, round_of};

use crate::found::Found;
use crate::inquiry::Inquiry;
use crate::stop::Stop;
use family::Family;
use faults::Fault;
use host::{Dense, Host};
use rounds::{Reading, Rows, round};
use scheme::sheet_size;
use session::Ready;
use std::alloc::Global;
use words::Words;

// Plays a round with one host as both. Its rows come as slices, and not as `Rows`: of a vector that is lent by way of a struct a
// proof does not know what it holds after.
fn play<F: Family, H: Host>(
    session: Ready,
    family: &F,
    host: &H,
    position: usize,
    first_query: &mut [u8],
    second_query: &mut [u8],
    first_sheet: &mut [u8],
    second_sheet: &mut [u8],
) -> Result<Reading, Fault>
    requires first_query { length first_query.old ≡ (F.Family.vectors family.now).dim }
    requires second_query { length second_query.old ≡ (F.Family.vectors family.now).dim }
    requires first_sheet { length first_sheet.old ≡ sheet_size (F.Family.vectors family.now).dim }
    requires second_sheet { length second_sheet.old ≡ sheet_size (F.Family.vectors family.now).dim }
    ensures { let r = round_with (ready_session session) (F.Family.vectors family.now) (H.Host.holding host.now) position in
        MatchResult result
        (λ reading. (round_fault r ≡ None) × (reading ≡ reading_of (findings_in r))
        × (first_query.new ≡ (findings_in r).first) × (second_query.new ≡ (findings_in r).second)
        × (first_sheet.new ≡ (findings_in r).first_sheet) × (second_sheet.new ≡ (findings_in r).second_sheet))
        (λ fault. round_fault r ≡ Some fault) }
{
    let rows = Rows {
        first_query,
        second_query,
        first_sheet,
        second_sheet,
    };
    let (_, reading) = round(session, family, host, host, position, rows);
    reading
}

// Finds an entry by a round with one host as both.
fn find<F: Family, H: Host>(
    heap: Global,
    session: Ready,
    family: &F,
    host: &H,
    position: usize,
) -> Result<Found, Stop>
    ensures { let r = round_with (ready_session session) (F.Family.vectors family.now) (H.Host.holding host.now) position in
        Finds (round_fault r) (λ f. findings f ≡ findings_in r) result }
{
    let k = family.dimension();
    let size = sheet_size(family);
    let mut first = vec![in heap; 0; k]?;
    let mut second = vec![in heap; 0; k]?;
    let mut first_sheet = vec![in heap; 0; size]?;
    let mut second_sheet = vec![in heap; 0; size]?;
    let reading = play(
        session,
        family,
        host,
        position,
        first.as_mut_slice(),
        second.as_mut_slice(),
        first_sheet.as_mut_slice(),
        second_sheet.as_mut_slice(),
    )?;
    Ok(Found {
        position,
        first,
        second,
        first_sheet,
        second_sheet,
        reading,
    })
}

impl Inquiry {
    ghost use Rattle.inquiry.specs.Inquiries.{said};

    // Looks the position up: makes the family and the host, opens the session, and plays the round. The first that refuses decides.
    #[tactic(auto, unfolding(crate::specs::Replies::inquiry_fault))]
    pub fn look_up(self, heap: Global) -> Result<Found, Stop>
        ensures { Finds (inquiry_fault (said self)) (λ f. findings f ≡ findings_in (round_of (said self))) result }
    {
        let Inquiry {
            letters,
            alphabet,
            position,
            table,
            tape,
        } = self;
        let family = Words::new(letters, alphabet)?;
        let host = Dense::new(table.as_slice())?;
        let session = Ready::open(&family, tape)?;
        find(heap, session, &family, &host, position)
    }
}
