// Listing the changes that a host holds.

use crate::change::Change;
use crate::change_host::ChangeHost;

impl ChangeHost {
    ghost use Rattle.host.specs.Changes.{Lists};
    ghost use Rattle.host.specs.ChangeHosts.{change_count, number_held, told_by};

    // The changes held, each once. THE ORDER IS LEFT OPEN: no caller may count on any, nor on finding it again.
    pub fn changes(&self) -> &[Change]
        ensures order_left_open { Lists (change_count self.now) (told_by self.now) (number_held self.now) result.now }
    {
        &self.changes[..self.held]
    }
}
