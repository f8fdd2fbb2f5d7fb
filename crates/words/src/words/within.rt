// The product and spreading over a position's own coordinates, in rows that reach all coordinates: those of `over.rt` without a look
// at each place whether it is there, which a dense host's inner loop would pay for. That the coordinates are small, within the row
// and a position's own stands in the clauses, and not in a struct round them: the clauses speak of the letters, the alphabet and the
// position too, so it would have these as ghost fields, and a limit for each row that comes later.
ghost use Rattle.std.specs.Prelude.{◌≡◌, ℕ, ◌+◌, ◌*◌, ◌%◌, ◌<◌, ◌≤◌, length, sum_by};
ghost use Rattle.digits.specs.Rows.{at};
ghost use Rattle.family.specs.Spread.{spread};
ghost use Rattle.words.specs.Own.{own_or_none};
ghost use Rattle.words.specs.Words.{word_digit};

use arrayvec::ArrayVec;

// The product of a row and the vector that is 1 at the own coordinates and 0 elsewhere.
#[inline(always)]
pub(super) fn product_within(own: &ArrayVec<usize, 16>, row: &[u8]) -> u8
    requires { (k : ℕ) → k < length own.now.items → at own.now.items k < length row.now }
    ensures { result ≡ sum_by (at row.now) own.now.items % 6 }
{
    let sum: u32 = own.iter().map(|c| u32::from(row[*c])).sum();
    (sum % 6) as u8
}

// Spreads over the elements of the own coordinates, whatever position of a family of words they are those of.
#[inline(always)]
#[tactic(auto, using(crate::proofs::Spreading::spread_none, crate::proofs::Spreading::spread_more))]
pub(super) fn spread_within(own: &ArrayVec<usize, 16>, amount: u8, e: usize, elements: &mut [u8])
    requires small { (k : ℕ) → k < length own.now.items → at own.now.items k < 2641 }
    requires within { (k : ℕ) → k < length own.now.items → 6 * at own.now.items k + 6 ≤ length elements.old }
    ensures { (h q t : ℕ) → 0 < q → own.now.items ≡ own_or_none h q t →
        elements.new ≡ spread (word_digit h q (λ s. 1) t) amount e elements.old }
{
    for c in own.iter() {
        let place = 6 * *c + e % 6;
        elements[place] = digit_sum(elements[place], amount);
    }
}

// 2^32 / 6 rounded down and 1.
const INVERSE: u64 = (1 << 32) / 6 + 1;

// The sum of two bytes modulo 6. It is multiplied by the inverse of 6 and shifted, as for letters: with the compiler's own
// remainder a dense host's answer takes a twentieth more time for words of five letters, and an eighth more for one letter.
fn digit_sum(digit: u8, amount: u8) -> u8
    ensures { result ≡ (digit + amount) % 6 }
{
    let sum = u64::from(digit) + u64::from(amount);
    (sum - 6 * ((sum * INVERSE) >> 32)) as u8
}
