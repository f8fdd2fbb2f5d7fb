// The change host: a table of zeros but for a few changes.
ghost use Rattle.std.specs.Prelude.{◌≡◌, ℕ, ◌≤◌, length, take, Some, None, MatchResult};
ghost use Rattle.digits.specs.Refusals.{limit_fault};
ghost use Rattle.faults.specs.declared.Layer.TheVariants.{Host as HostLayer};
ghost use Rattle.host.specs.Changes.{Distinct, Below, Small};

use crate::change::Change;
use crate::host::MOST_ENTRIES;
use digits::check_limits;
use faults::{Fault, Layer};

pub mod as_host;
pub mod listing;
pub mod setting;
pub mod telling;

// How many changes a host holds at most.
const MOST: usize = 64;

// A host whose table is 0 but at the positions of its changes, of which it holds at most 64. They stand at the front of the
// array, each position once.
#[derive(Clone, Copy)]
pub struct ChangeHost {
    count: usize,
    held: usize,
    // An array and a number beside it, and no `ArrayVec`, which is not `Copy`: so a host can be copied whole.
    changes: [Change; MOST],
    ghost some: { 1 ≤ count },
    ghost few: { count ≤ 1048576 },
    ghost sized: { length changes ≡ 64 },
    ghost room: { held ≤ 64 },
    // Three facts, and no record of them: each is kept by a lemma of its own, and not all who use one need the others.
    ghost below: { Below count (take held changes) },
    ghost small: { Small (take held changes) },
    ghost apart: { Distinct (take held changes) },
}

impl ChangeHost {
    ghost use Rattle.host.specs.ChangeHosts.{change_count, number_held, told_by};

    // A host of a table of zeros, with a count from 1 to 1,048,576 and no change; any other count is refused.
    pub fn new(count: usize) -> Result<ChangeHost, Fault>
        ensures { MatchResult result
            (λ h. (limit_fault HostLayer 1 1048576 count ≡ None)
            × (change_count h ≡ count) × (number_held h ≡ 0) × ((p : ℕ) → told_by h p ≡ None))
            (λ e. limit_fault HostLayer 1 1048576 count ≡ Some e) }
    {
        check_limits(Layer::Host, 1, MOST_ENTRIES, count)?;
        Ok(ChangeHost {
            count,
            held: 0,
            changes: [Change {
                position: 0,
                digit: 0,
            }; MOST],
        })
    }

    // How many changes are held.
    pub fn held(&self) -> usize
        ensures number { result ≡ number_held self.now }
        ensures most { result ≤ 64 }
    {
        self.held
    }
}
