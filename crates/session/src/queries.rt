// Queries: what a request writes for the two hosts.
ghost use Rattle.std.specs.Prelude.{◌≡◌, ◌+◌, ◌%◌, length};
ghost use Rattle.digits.specs.Rows.{at, row};
ghost use Rattle.scheme.specs.Queries.{shift};

use digits::reduce;
use family::Family;

// Writes digits over a row, as far as the row goes; where the digits end, zeros.
fn copy(digits: &[u8], target: &mut [u8])
    ensures { target.new ≡ row (length target.old) (at digits.now) }
{
    let n = digits.len().min(target.len());
    let (start, rest) = target.split_at_mut(n);
    start.copy_from_slice(&digits[..n]);
    rest.fill(0);
}

// Writes the two queries for a position, made with these tape digits, and gives the shift. Past the last tape digit each counts
// as 0, and what lies past a row's end is not written. (Rows one by one, as at `Ready::request`.)
pub fn write_queries<F: Family>(
    family: &F,
    t: usize,
    digits: &[u8],
    first: &mut [u8],
    second: &mut [u8],
) -> u8
    ensures first { first.new ≡ row (length first.old) (at digits.now) }
    ensures second { second.new ≡ row (length second.old) (λ c. (at digits.now c + (F.Family.vectors family.now).v t c) % 6) }
    ensures shift { result ≡ shift (F.Family.vectors family.now) t digits.now }
{
    copy(digits, first);
    copy(digits, second);
    // `add_v` leaves alone where v(t) is 0, also a byte above 5
    reduce(second);
    family.add_v(t, second);
    family.u_product(t, digits)
}
