// Sheets: how long a host's answer is.
ghost use Rattle.std.specs.Prelude.{◌≡◌};
ghost use Rattle.scheme.specs.Answers.{sheet_size};

use family::Family;

// How many digits a sheet has: six for the value, and six for the element of each coordinate.
pub fn sheet_size<F: Family>(family: &F) -> usize
    ensures { result ≡ sheet_size (F.Family.vectors family.now).dim }
{
    6 * (1 + family.dimension())
}
