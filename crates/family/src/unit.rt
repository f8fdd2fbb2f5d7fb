// The unit family: as many coordinates as positions, one for each.
ghost use Rattle.std.specs.Prelude.{◌≡◌, ◌≤◌, Some, None, MatchResult};
ghost use Rattle.digits.specs.Refusals.{limit_fault};
ghost use Rattle.faults.specs.declared.Layer.TheVariants.{Family as FamilyLayer};
ghost use Rattle.family.specs.Units.{unit_vectors};
ghost use Rattle.family.specs.UnitsLemmas.{unit_family};

use crate::family::Family;
use digits::{add_at, check_limits, digit_at};
use faults::{Fault, Layer};

// The unit family of some count, whose dimension is that count too.
#[derive(Clone, Copy)]
pub struct UnitFamily {
    count: usize,
    ghost some: { 1 ≤ count },
    ghost few: { count ≤ 4096 },
}

impl UnitFamily {
    // The unit family of a count from 1 to 4,096; any other is refused.
    pub fn new(count: usize) -> Result<UnitFamily, Fault>
        ensures { MatchResult result
            (λ f. (limit_fault FamilyLayer 1 4096 count ≡ None) × (f.count ≡ count))
            (λ e. limit_fault FamilyLayer 1 4096 count ≡ Some e) }
    {
        check_limits(Layer::Family, 1, 4096, count)?;
        Ok(UnitFamily { count })
    }
}

impl Family for UnitFamily {
    ghost vectors = { λ f. unit_vectors f.count };

    ghost matching = { λ f. unit_family f.count f.some f.few };

    fn count(&self) -> usize {
        self.count
    }

    fn dimension(&self) -> usize {
        self.count
    }

    fn u(&self, i: usize, c: usize) -> u8 {
        u8::from(i < self.count && i == c)
    }

    fn v(&self, i: usize, c: usize) -> u8 {
        u8::from(i < self.count && c < self.count && i != c)
    }

    // Only coordinate i of u(i) is not 0.
    #[tactic(auto, using(crate::proofs::PastCount::past_count, crate::specs::UnitsLemmas::unit_product))]
    fn u_product(&self, i: usize, row: &[u8]) -> u8 {
        if i < self.count {
            digit_at(row, i) % 6
        } else {
            0
        }
    }

    #[tactic(auto, using(crate::proofs::PastCount::past_count, crate::specs::UnitsLemmas::unit_spread))]
    fn spread(&self, i: usize, amount: u8, e: usize, elements: &mut [u8]) {
        if i < self.count {
            add_at(elements, 6 * i + e % 6, u32::from(amount));
        }
    }
}
