// Telling the change at a position, and the entry that it makes.
ghost use Rattle.std.specs.Prelude.{◌≡◌, ◌<◌, ◌≤◌, None, IfSome};

use crate::change_host::ChangeHost;

impl ChangeHost {
    ghost use Rattle.host.specs.Changes.{table_of};
    ghost use Rattle.host.specs.ChangeHosts.{change_count, told_by};

    // The digit of the change at a position, or none where no change is held there; past the count none is.
    #[tactic(auto, using(crate::specs::ChangesLemmas::none_past))]
    pub fn told(&self, position: usize) -> Option<u8>
        ensures value { result ≡ told_by self.now position }
        ensures digit { IfSome result (λ d. d < 6) }
        ensures past { change_count self.now ≤ position → told_by self.now position ≡ None }
    {
        self.changes[..self.held]
            .iter()
            .find(|c| c.position == position)
            .map(|c| c.digit)
    }

    // The table's entry at a position: the digit of the change there, else 0. By a `match`: a table of zeros and changes
    // has these two cases.
    pub fn entry(&self, position: usize) -> u8
        ensures { result ≡ table_of (told_by self.now) position }
    {
        match self.told(position) {
            Some(digit) => digit,
            None => 0,
        }
    }
}
