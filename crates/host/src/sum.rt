// The sum of two hosts.
ghost use Rattle.std.specs.Prelude.{◌≡◌, Some, None, MatchResult};
ghost use Rattle.digits.specs.Refusals.{equal_fault};
ghost use Rattle.faults.specs.declared.Layer.TheVariants.{Host as HostLayer};
ghost use Rattle.host.specs.Sums.{sum_holding};
ghost use Rattle.host.specs.SumsLemmas.{sum_held};

use crate::host::Host;
use digits::check_equal;
use family::Family;
use faults::{Fault, Layer};

// Two hosts of one count as one, whose table is the sum of theirs, entry by entry.
#[derive(Drop)]
pub struct Sum<A: Host, B: Host> {
    first: A,
    second: B,
    ghost equal: { (A.Host.holding first).count ≡ (B.Host.holding second).count },
}

impl<A: Host, B: Host> Sum<A, B> {
    // The sum of two hosts of equal counts; a second of another count is refused.
    pub fn new(first: A, second: B) -> Result<Sum<A, B>, Fault>
    where
        A: Drop,
        B: Drop,
        ensures { MatchResult result
            (λ s. (equal_fault HostLayer (A.Host.holding first).count (B.Host.holding second).count ≡ None)
            × (⟦<Sum<A, B> as Host>⟧.holding s ≡ sum_holding (A.Host.holding first) (B.Host.holding second)))
            (λ e. equal_fault HostLayer (A.Host.holding first).count (B.Host.holding second).count ≡ Some e) }
    {
        check_equal(Layer::Host, first.count(), second.count())?;
        Ok(Sum { first, second })
    }
}

impl<A: Host, B: Host> Host for Sum<A, B> {
    ghost holding = { λ s. sum_holding (A.Host.holding s.first) (B.Host.holding s.second) };

    ghost held_well = { λ s.
        sum_held (A.Host.holding s.first) (B.Host.holding s.second) s.equal (A.Host.held_well s.first) (B.Host.held_well s.second) };

    fn count(&self) -> usize {
        self.first.count()
    }

    // The first leaves a sheet that is fit for the second, whose count is the same, so no refusal comes half way.
    fn answer<F: Family>(&self, family: &F, query: &[u8], sheet: &mut [u8]) -> Result<(), Fault> {
        self.first.answer(family, query, sheet)?;
        self.second.answer(family, query, sheet)
    }
}
