// A change host as a host.

use crate::answering::{add_entry, check_answer};
use crate::change_host::ChangeHost;
use crate::host::Host;
use family::Family;
use faults::Fault;

impl Host for ChangeHost {
    ghost use Rattle.host.specs.Changes.{change_holding};
    ghost use Rattle.host.specs.ChangeHosts.{change_count, changes_held, told_by};
    ghost use Rattle.host.specs.ChangesLemmas.{changes_held_well};

    ghost holding = { λ h. change_holding (change_count h) (told_by h) };

    ghost held_well = { λ h. changes_held_well h.count (changes_held h) h.some h.few h.below h.small };

    fn count(&self) -> usize {
        self.count
    }

    // Only the positions of changes can hold more than 0, and where the digit is 0 nothing is added. The dense host's loop goes over
    // places and digits and this one over records: what they share is called, and one loop for both over an iterator of pairs
    // would be no plainer.
    fn answer<F: Family>(&self, family: &F, query: &[u8], sheet: &mut [u8]) -> Result<(), Fault> {
        check_answer(self.count, family, query, sheet)?;
        for change in &self.changes[..self.held] {
            if change.digit != 0 {
                add_entry(family, change.position, change.digit, query, sheet);
            }
        }
        Ok(())
    }
}
