// What a program finds for an inquiry, to tell it as text.
ghost use Rattle.std.specs.Prelude.{◌≡◌, ℕ, List, Some};
ghost use Rattle.rounds.specs.Rounds.{Round};
ghost use Rattle.inquiry.specs.Stops.{Finds};
ghost use Rattle.inquiry.specs.Inquiries.{said};
ghost use Rattle.inquiry.specs.Replies.{inquiry_fault, round_of, found_text};

use crate::found::Found;
use crate::inquiry::Inquiry;
use crate::stop::Stop;
use std::alloc::Global;
use std::fmt::Display;

// What can be found for an inquiry, and tells its round in its own way.
pub trait Tells: Display + Drop {
    // the text that tells a round
    ghost tells: { Round → List ℕ };

    // Finds it. The first call that refuses decides.
    fn find(inquiry: Inquiry, heap: Global) -> Result<Self, Stop>
        ensures { Finds (inquiry_fault (said inquiry)) (λ f. Self.output f ≡ Some (tells (round_of (said inquiry)))) result };
}

// What a lookup finds, in five lines.
impl Tells for Found {
    ghost tells = { found_text };

    fn find(inquiry: Inquiry, heap: Global) -> Result<Found, Stop> {
        inquiry.look_up(heap)
    }
}
