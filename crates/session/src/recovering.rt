// Recovery: the entry that two sheets come to, or what is amiss with them.
ghost use Rattle.std.specs.Prelude.{◌≡◌};
ghost use Rattle.scheme.specs.Sessions.{outcome};

use digits::{check_digits, check_length};
use family::Family;
use faults::Fault;
use scheme::{found, read_entry, sheet_size};

// The entry that two sheets come to for a position and a shift, or why there is none.
#[tactic(auto, using(crate::proofs::Sheets::own_outcome))]
pub fn read_sheets<F: Family>(
    family: &F,
    position: usize,
    shift: u8,
    one: &[u8],
    two: &[u8],
) -> Result<u8, Fault>
    ensures { result ≡ outcome (F.Family.vectors family.now).count (F.Family.vectors family.now).dim
        (F.Family.vectors family.now) position shift one.now two.now }
{
    let size = sheet_size(family);
    check_length(one, size)?;
    check_length(two, size)?;
    check_digits(one)?;
    check_digits(two)?;
    read_entry(&found(family, position, shift, one, two)).ok_or(Fault::at_odds(position))
}
