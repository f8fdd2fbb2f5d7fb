// The dense host: a table given as a row, an entry for each position.
ghost use Rattle.std.specs.Prelude.{◌≡◌, ◌≤◌, Some, None, MatchResult, length};
ghost use Rattle.digits.specs.Rows.{at, Digits};
ghost use Rattle.host.specs.Dense.{dense_fault, dense_holding};
ghost use Rattle.host.specs.DenseLemmas.{dense_held};

use crate::answering::{add_entry, check_answer};
use crate::host::{Host, MOST_ENTRIES};
use digits::{check_digits, check_limits, digit_at};
use family::Family;
use faults::{Fault, Layer};

// A host whose table is a row that it borrows. It copies nothing and needs no heap.
#[derive(Clone, Copy)]
pub struct Dense<'a> {
    table: &'a [u8],
    ghost some: { 1 ≤ length table.now },
    ghost few: { length table.now ≤ 1048576 },
    ghost digits: { Digits table.now },
}

impl<'a> Dense<'a> {
    ghost use Rattle.host.specs.DenseHosts.{table_row};

    // A host of a table of 1 to 1,048,576 digits; any other row is refused, for its count or for its first byte above 5.
    pub fn new(table: &'a [u8]) -> Result<Dense<'a>, Fault>
        ensures { MatchResult result
            (λ h. (dense_fault table.now ≡ None) × (⟦<Dense<'a> as Host>⟧.holding h ≡ dense_holding table.now))
            (λ e. dense_fault table.now ≡ Some e) }
    {
        check_limits(Layer::Host, 1, MOST_ENTRIES, table.len())?;
        check_digits(table)?;
        Ok(Dense { table })
    }

    // The entry at a position; past the last it is 0.
    pub fn entry(&self, position: usize) -> u8
        ensures { result ≡ at (table_row self.now) position }
    {
        digit_at(self.table, position)
    }
}

impl Host for Dense<'_> {
    ghost holding = { λ h. dense_holding h.table.now };

    ghost held_well = { λ h. dense_held h.table.now h.some h.few h.digits };

    fn count(&self) -> usize {
        self.table.len()
    }

    // Positions whose entry is 0 add nothing and are passed over.
    fn answer<F: Family>(&self, family: &F, query: &[u8], sheet: &mut [u8]) -> Result<(), Fault> {
        check_answer(self.table.len(), family, query, sheet)?;
        for (i, amount) in self.table.iter().enumerate() {
            if *amount != 0 {
                add_entry(family, i, *amount, query, sheet);
            }
        }
        Ok(())
    }
}
