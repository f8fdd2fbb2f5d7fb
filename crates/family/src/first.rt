// The first part of any family.
ghost use Rattle.std.specs.Prelude.{◌≡◌, ◌≤◌, Some, None, MatchResult};
ghost use Rattle.digits.specs.Refusals.{limit_fault};
ghost use Rattle.faults.specs.declared.Layer.TheVariants.{Family as FamilyLayer};
ghost use Rattle.family.specs.FirstParts.{first_part};
ghost use Rattle.family.specs.FirstPartsLemmas.{first_family};

use crate::family::Family;
use digits::{Element, check_limits};
use faults::{Fault, Layer};

// The first positions of a family, with the same dimension.
#[derive(Drop)]
pub struct FirstPart<F> {
    family: F,
    count: usize,
    ghost some: { 1 ≤ count },
}

impl<F: Family> FirstPart<F> {
    // The first positions of a family, from 1 to its count of them; any other number is refused.
    pub fn new(family: F, count: usize) -> Result<FirstPart<F>, Fault>
    where
        F: Drop,
        ensures { MatchResult result
            (λ f. (limit_fault FamilyLayer 1 (F.Family.vectors family).count count ≡ None) × (f.family ≡ family) × (f.count ≡ count))
            (λ e. limit_fault FamilyLayer 1 (F.Family.vectors family).count count ≡ Some e) }
    {
        check_limits(Layer::Family, 1, family.count(), count)?;
        Ok(FirstPart { family, count })
    }
}

// Each method asks for itself whether the position is in the first part: a helper that answers with the family or with nothing
// would leave as many cases to tell apart.
#[tactic(auto, using(crate::proofs::PastCount::past_count))]
impl<F: Family> Family for FirstPart<F> {
    ghost vectors = { λ f. first_part f.count (F.Family.vectors f.family) };

    ghost matching = { λ f. first_family f.count (F.Family.vectors f.family) f.some (F.Family.matching f.family) };

    fn count(&self) -> usize {
        self.count.min(self.family.count())
    }

    fn dimension(&self) -> usize {
        self.family.dimension()
    }

    fn u(&self, i: usize, c: usize) -> u8 {
        if i < self.count {
            self.family.u(i, c)
        } else {
            0
        }
    }

    fn v(&self, i: usize, c: usize) -> u8 {
        if i < self.count {
            self.family.v(i, c)
        } else {
            0
        }
    }

    fn add_v(&self, i: usize, row: &mut [u8]) {
        if i < self.count {
            self.family.add_v(i, row);
        }
    }

    fn u_product(&self, i: usize, row: &[u8]) -> u8 {
        if i < self.count {
            self.family.u_product(i, row)
        } else {
            0
        }
    }

    fn v_product(&self, i: usize, elements: &[u8]) -> Element {
        if i < self.count {
            self.family.v_product(i, elements)
        } else {
            Element::zero()
        }
    }

    fn spread(&self, i: usize, amount: u8, e: usize, elements: &mut [u8]) {
        if i < self.count {
            self.family.spread(i, amount, e, elements);
        }
    }

    fn spread_by_product(&self, i: usize, amount: u8, query: &[u8], elements: &mut [u8]) -> u8 {
        if i < self.count {
            self.family.spread_by_product(i, amount, query, elements)
        } else {
            0
        }
    }
}
