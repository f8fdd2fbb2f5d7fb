// The product and spreading over a position's own coordinates. They are those of `within.rt`, but look whether each place is there:
// one pair for both would look in a dense host's inner loop too, where it costs time.
ghost use Rattle.std.specs.Prelude.{◌≡◌, ℕ, ◌%◌, ◌<◌, length, sum_by};
ghost use Rattle.digits.specs.Rows.{at};
ghost use Rattle.family.specs.Spread.{spread};
ghost use Rattle.words.specs.Own.{own_or_none};
ghost use Rattle.words.specs.Words.{word_digit};

use arrayvec::ArrayVec;
use digits::{add_at, digit_at};

// The product of a row and the vector that is 1 at the own coordinates and 0 elsewhere.
pub(super) fn product_over(own: &ArrayVec<usize, 16>, row: &[u8]) -> u8
    ensures { result ≡ sum_by (at row.now) own.now.items % 6 }
{
    let sum: u32 = own.iter().map(|c| u32::from(digit_at(row, *c))).sum();
    (sum % 6) as u8
}

// Spreads over the elements of the own coordinates, whatever position of a family of words they are those of.
#[tactic(auto, using(crate::proofs::Spreading::spread_none, crate::proofs::Spreading::spread_more))]
pub(super) fn spread_over(own: &ArrayVec<usize, 16>, amount: u8, e: usize, elements: &mut [u8])
    requires { (k : ℕ) → k < length own.now.items → at own.now.items k < 2641 }
    ensures { (h q t : ℕ) → 0 < q → own.now.items ≡ own_or_none h q t →
        elements.new ≡ spread (word_digit h q (λ s. 1) t) amount e elements.old }
{
    for c in own.iter() {
        add_at(elements, 6 * *c + e % 6, u32::from(amount));
    }
}
