// The product of two vectors of digits.
ghost use Rattle.std.specs.Prelude.{◌≡◌, ◌*◌, ◌≤◌, length, Some, None, MatchResult, sum_by};
ghost use Rattle.std.specs.List.{zip};
ghost use Rattle.digits.specs.Rows.{at};
ghost use Rattle.digits.specs.Sums.{product};
ghost use Rattle.digits.specs.Refusals.{vectors_fault};
ghost use Rattle.digits.specs.declared.product.TheConstants.{STRETCH};

use crate::rows::{check_digits, check_length};
use faults::Fault;

// So many products of two bytes sum up in 32 bits, so the remainder can wait until after them.
const STRETCH: usize = 4096;

// The plain sum of the products along two rows, as far as both go, of which the first is no longer than a stretch.
fn plain_sum(a: &[u8], b: &[u8]) -> u32
    requires { length a.now ≤ STRETCH }
    ensures { result ≡ sum_by (λ p. p.0 * p.1) (zip a.now b.now) }
{
    a.iter()
        .zip(b)
        .map(|(x, y)| u32::from(*x) * u32::from(*y))
        .sum()
}

// The product of two rows of any length, modulo 6; digits past a row's end count as 0. (The usual word is dot product.)
pub fn dot(a: &[u8], b: &[u8]) -> u8
    ensures { result ≡ product (length a.now) (at a.now) (at b.now) }
{
    // no vector is longer than a stretch: there is nothing to cut then, and one remainder is enough
    if a.len() <= STRETCH {
        return (plain_sum(a, b) % 6) as u8;
    }
    let mut sum = 0;
    for (x, y) in a.chunks(STRETCH).zip(b.chunks(STRETCH)) {
        // reduced before it is added, since nothing but its type bounds the plain sum of a stretch
        sum = (sum + plain_sum(x, y) % 6) % 6;
    }
    sum as u8
}

// The product of two vectors, refused unless both are digits and the second is as long as the first.
pub fn vector_product(a: &[u8], b: &[u8]) -> Result<u8, Fault>
    ensures { MatchResult result
        (λ d. (vectors_fault a.now b.now ≡ None) × (d ≡ product (length a.now) (at a.now) (at b.now)))
        (λ e. vectors_fault a.now b.now ≡ Some e) }
{
    check_length(b, a.len())?;
    check_digits(a)?;
    check_digits(b)?;
    Ok(dot(a, b))
}
