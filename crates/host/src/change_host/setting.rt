// Setting a change.
ghost use Rattle.std.specs.Prelude.{◌≡◌, ◌<◌, ℕ, Some, None, IfSome, MatchResult};

use crate::change::Change;
use crate::change_host::{ChangeHost, MOST};
use digits::{check_below, check_digit};
use faults::{Fault, Layer};

impl ChangeHost {
    ghost use Rattle.host.specs.Changes.{place_of, set_fault, told_after, held_after};
    ghost use Rattle.host.specs.ChangeHosts.{change_count, number_held, changes_held, told_by};

    // The place of the change at a position, if one is held there. (`told`, which only reads the change, looks for it without its place,
    // and so has no index to show in range.)
    fn place(&self, position: usize) -> Option<usize>
        ensures first { result ≡ place_of (changes_held self.now) position }
        ensures within { IfSome result (λ i. i < number_held self.now) }
    {
        self.changes[..self.held]
            .iter()
            .position(|c| c.position == position)
    }

    // Sets the digit at a position. Where a change is held there its digit is replaced, and no other; else the change is one
    // more. Refused are, in this order, a position not below the count, a digit above 5, and a change at a new position where 64
    // are held; then nothing changes.
    pub fn set(&mut self, position: usize, digit: u8) -> Result<(), Fault>
        ensures { MatchResult result
            (λ _. (set_fault (change_count self.old) (number_held self.old) (told_by self.old position) position digit ≡ None)
            × (change_count self.new ≡ change_count self.old)
            × (number_held self.new ≡ held_after (number_held self.old) (told_by self.old position))
            × ((p : ℕ) → told_by self.new p ≡ told_after (told_by self.old) position digit p))
            (λ e. (set_fault (change_count self.old) (number_held self.old) (told_by self.old position) position digit ≡ Some e)
            × (self.new ≡ self.old)) }
    {
        check_below(Layer::Host, self.count, position)?;
        check_digit(digit)?;
        match self.place(position) {
            Some(i) => {
                let change = &mut self.changes[i];
                change.digit = digit;
            }
            None => {
                if self.held == MOST {
                    return Err(Fault::full());
                }
                self.changes[self.held] = Change { position, digit };
                self.held += 1;
            }
        }
        Ok(())
    }
}
