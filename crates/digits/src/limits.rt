// Numbers that must lie within limits, or be what another number is.
ghost use Rattle.std.specs.Prelude.{◌≡◌, ◌<◌, Some, None, MatchResult, OnOk};
ghost use Rattle.digits.specs.Refusals.{limit_fault, equal_fault, below_fault};

use faults::{Fault, Layer};

// Refuses a number below the lowest or above the highest that the part called takes.
pub fn check_limits(layer: Layer, low: usize, high: usize, found: usize) -> Result<(), Fault>
    ensures { MatchResult result (λ _. limit_fault layer low high found ≡ None) (λ e. limit_fault layer low high found ≡ Some e) }
{
    if (low..=high).contains(&found) {
        Ok(())
    } else {
        Err(Fault::size(layer, found))
    }
}

// Refuses a count or a dimension unlike the one that the part called needs it to be.
pub fn check_equal(layer: Layer, needed: usize, found: usize) -> Result<(), Fault>
    ensures cases { MatchResult result (λ _. equal_fault layer needed found ≡ None) (λ e. equal_fault layer needed found ≡ Some e) }
    ensures fits { OnOk result (found ≡ needed) }
{
    if found == needed {
        Ok(())
    } else {
        Err(Fault::size(layer, found))
    }
}

// Refuses a position that is not below the count of the part called.
pub fn check_below(layer: Layer, count: usize, position: usize) -> Result<(), Fault>
    ensures cases { MatchResult result (λ _. below_fault layer count position ≡ None) (λ e. below_fault layer count position ≡ Some e) }
    ensures fits { OnOk result (position < count) }
{
    if position < count {
        Ok(())
    } else {
        Err(Fault::position(layer, position))
    }
}
