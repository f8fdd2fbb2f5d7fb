// The working of a lookup: what it finds, and each step in between.
ghost use Rattle.std.specs.Prelude.{◌≡◌};
ghost use Rattle.inquiry.specs.Findings.{findings};
ghost use Rattle.inquiry.specs.Inquiries.{said};
ghost use Rattle.inquiry.specs.Replies.{inquiry_fault, round_of};
ghost use Rattle.inquiry.specs.Stops.{Finds};
ghost use Rattle.working.specs.Workings.{working_from, working_in};
ghost use Rattle.working.specs.Works.{working};

use crate::reckoning::Reckoning;
use family::Family;
use inquiry::{Found, Inquiry, Stop};
use std::alloc::Global;
use words::Words;

// What a lookup finds, the shift that its request kept, and what its sheets come to. The tape digits that the request used are the first
// query.
#[derive(Drop)]
pub struct Work {
    pub found: Found,
    pub shift: u8,
    pub reckoning: Reckoning,
}

impl Work {
    // The working of a lookup that found this in a family.
    pub fn new<F: Family>(family: &F, found: Found) -> Work
        ensures { working result ≡ working_from (F.Family.vectors family.now) (findings found) }
    {
        let shift = family.u_product(found.position, &found.first);
        let reckoning = Reckoning::new(
            family,
            found.position,
            shift,
            &found.first_sheet,
            &found.second_sheet,
        );
        Work {
            found,
            shift,
            reckoning,
        }
    }
}

// Looks an inquiry's position up, and works the lookup out.
#[tactic(auto, unfolding(inquiry::specs::Replies::inquiry_fault))]
pub fn work_out(inquiry: Inquiry, heap: Global) -> Result<Work, Stop>
    ensures { Finds (inquiry_fault (said inquiry)) (λ w. working w ≡ working_in (round_of (said inquiry))) result }
{
    let family = Words::new(inquiry.letters, inquiry.alphabet)?;
    let found = inquiry.look_up(heap)?;
    Ok(Work::new(&family, found))
}
