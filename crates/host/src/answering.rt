// What the kinds of hosts share: refusing an unfit query or sheet, and adding one entry's answer.
ghost use Rattle.std.specs.Prelude.{◌≡◌, ◌<◌, Some, None, MatchResult, OnOk};
ghost use Rattle.scheme.specs.Answers.{Query, Sheet, answered};
ghost use Rattle.host.specs.Entries.{single};
ghost use Rattle.host.specs.Holdings.{answer_fault};

use digits::{add_at, check_digits, check_equal, check_length};
use family::Family;
use faults::{Fault, Layer};
use scheme::sheet_size;

// Refuses what a host of that count cannot answer: a family of another count, then an unfit query or sheet.
pub(crate) fn check_answer<F: Family>(
    count: usize,
    family: &F,
    query: &[u8],
    sheet: &[u8],
) -> Result<(), Fault>
    ensures cases { MatchResult result
        (λ _. answer_fault count (F.Family.vectors family.now) query.now sheet.now ≡ None)
        (λ e. answer_fault count (F.Family.vectors family.now) query.now sheet.now ≡ Some e) }
    ensures counted { OnOk result ((F.Family.vectors family.now).count ≡ count) }
    ensures query { OnOk result (Query (F.Family.vectors family.now) query.now) }
    ensures sheet { OnOk result (Sheet (F.Family.vectors family.now) sheet.now) }
{
    check_equal(Layer::Host, count, family.count())?;
    check_length(query, family.dimension())?;
    check_length(sheet, sheet_size(family))?;
    check_digits(query)?;
    check_digits(sheet)
}

// Adds to a fit sheet what a host answers whose table holds an amount at position i and 0 elsewhere. At which coordinates to
// look is left to the family, since a host of 1,048,576 entries does this for each.
pub(crate) fn add_entry<F: Family>(family: &F, i: usize, amount: u8, query: &[u8], sheet: &mut [u8])
    requires below { i < (F.Family.vectors family.now).count }
    requires fit { Sheet (F.Family.vectors family.now) sheet.old }
    ensures { sheet.new ≡ answered (F.Family.vectors family.now) (single i amount) query.now sheet.old }
{
    let e = usize::from(family.spread_by_product(i, amount, query, &mut sheet[6..]));
    add_at(sheet, e, u32::from(amount));
}
