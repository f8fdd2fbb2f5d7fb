// Families of words.
ghost use Rattle.std.specs.Prelude.{◌≡◌, ◌+◌, ◌/◌, ◌*◌, ◌^◌, ◌≤◌, length, Some, None, MatchResult, IfOk};
ghost use Rattle.digits.specs.Rows.{at};
ghost use Rattle.digits.specs.Sums.{product};
ghost use Rattle.family.specs.Spread.{spread};
ghost use Rattle.words.specs.Words.{word_dim, word_vectors, words_fault};
ghost use Rattle.words.specs.WordFamily.{words_family};

use digits::{Element, add_at, check_limits};
use family::Family;
use faults::{Fault, Layer};

mod over;
mod own;
mod weights;
mod within;

use over::{product_over, spread_over};
use within::{product_within, spread_within};

// A family of words of h letters from an alphabet of q: there are q^h positions, each a word read as a number in base q, and
// 1 + h q + h (h - 1) / 2 q q coordinates, for no place, for each place and letter, and for each two places and two letters.
// The inverse, 2^32 / q rounded down and 1, stands in for divisions by q.
#[derive(Clone, Copy)]
pub struct Words {
    letters: usize,
    alphabet: usize,
    count: usize,
    dimension: usize,
    inverse: usize,
    ghost some: { 1 ≤ letters },
    ghost short: { letters ≤ 5 },
    ghost choice: { 2 ≤ alphabet },
    ghost few: { alphabet ≤ 16 },
    ghost counted: { count ≡ alphabet ^ letters },
    ghost sized: { dimension ≡ word_dim letters alphabet },
    ghost inverted: { inverse ≡ 4294967296 / alphabet + 1 },
}

impl Words {
    ghost use Rattle.words.specs.Sizes.{letters_of, alphabet_of};

    // A family of words of 1 to 5 letters from an alphabet of 2 to 16.
    #[tactic(auto, using(crate::specs::Limits::count_few))]
    pub fn new(letters: usize, alphabet: usize) -> Result<Words, Fault>
        ensures cases { MatchResult result (λ _. words_fault letters alphabet ≡ None) (λ e. words_fault letters alphabet ≡ Some e) }
        ensures letters { IfOk result (λ w. letters_of w ≡ letters) }
        ensures alphabet { IfOk result (λ w. alphabet_of w ≡ alphabet) }
    {
        check_limits(Layer::Family, 1, 5, letters)?;
        check_limits(Layer::Family, 2, 16, alphabet)?;
        Ok(Words {
            letters,
            alphabet,
            count: alphabet.pow(letters as u32),
            dimension: 1 + letters * alphabet + letters * (letters - 1) / 2 * (alphabet * alphabet),
            inverse: (1 << 32) / alphabet + 1,
        })
    }

    // How many letters a word has.
    pub fn letters(&self) -> usize
        ensures { result ≡ letters_of self.now }
    {
        self.letters
    }

    // How many letters there are to choose from.
    pub fn alphabet(&self) -> usize
        ensures { result ≡ alphabet_of self.now }
    {
        self.alphabet
    }

    // What `spread_by_product` does where words have H letters and the rows reach all coordinates. The own coordinates are
    // found once for both.
    #[tactic(auto, using(crate::proofs::Telling::own_lt, crate::proofs::Telling::own_small, crate::proofs::Telling::product_told))]
    fn spread_own<const H: usize>(
        &self,
        i: usize,
        amount: u8,
        query: &[u8],
        elements: &mut [u8],
    ) -> u8
        requires fits { self.now.letters ≡ H }
        requires query { self.now.dimension ≤ length query.now }
        requires elements { 6 * self.now.dimension ≤ length elements.old }
        ensures product { let f = word_vectors self.now.letters self.now.alphabet in result ≡ product f.dim (f.u i) (at query.now) }
        ensures spread { elements.new ≡ spread ((word_vectors self.now.letters self.now.alphabet).u i) amount result elements.old }
    {
        let own = self.own_of::<H>(i);
        let e = product_within(&own, query);
        spread_within(&own, amount, usize::from(e), elements);
        e
    }
}

impl Family for Words {
    ghost use Rattle.words.specs.Sizes.{letters_of, alphabet_of};

    ghost vectors = { λ w. word_vectors (letters_of w) (alphabet_of w) };

    ghost matching = { λ w. words_family w.letters w.alphabet w.short w.choice w.few };

    fn count(&self) -> usize {
        self.count
    }

    fn dimension(&self) -> usize {
        self.dimension
    }

    // Past the last position there are no own coordinates, and none are looked for. So too in v, the
    // product and spreading.
    fn u(&self, i: usize, c: usize) -> u8 {
        if i < self.count {
            u8::from(self.own(i).contains(&c))
        } else {
            0
        }
    }

    #[tactic(auto, using(crate::proofs::Weighing::digit_weigh))]
    fn v(&self, i: usize, c: usize) -> u8 {
        if i >= self.count {
            return 0;
        }
        self.u(i, c) * self.weight(c)
    }

    // Only the digits at the position's own coordinates change.
    #[tactic(auto, using(crate::proofs::Adding::reached_all))]
    fn add_v(&self, i: usize, row: &mut [u8]) {
        let own = self.own(i);
        for c in own.iter() {
            let d = self.weight(*c);
            if d != 0 {
                add_at(row, *c, u32::from(d));
            }
        }
    }

    // Only the digits at the position's own coordinates count.
    #[tactic(auto, using(crate::proofs::Telling::product_told))]
    fn u_product(&self, i: usize, row: &[u8]) -> u8 {
        if i >= self.count {
            return 0;
        }
        product_over(&self.own(i), row)
    }

    // Only the elements at the position's own coordinates count. The sum is a loop's: with `fold` the check finds neither that the
    // coordinates stay small nor what the sum is, which go by the place reached, as an invariant says.
    #[tactic(auto, using(crate::proofs::Telling::own_small))]
    fn v_product(&self, i: usize, elements: &[u8]) -> Element {
        let own = self.own(i);
        let mut sum = Element::zero();
        for c in own.iter() {
            sum = sum + Element::read_at(elements, 6 * *c).scaled(self.weight(*c));
        }
        sum
    }

    // Only the elements at the position's own coordinates change.
    #[tactic(auto, using(crate::proofs::Telling::own_small))]
    fn spread(&self, i: usize, amount: u8, e: usize, elements: &mut [u8]) {
        if i >= self.count {
            return;
        }
        spread_over(&self.own(i), amount, e, elements);
    }

    // The compiler makes code for each number of letters. In rows that reach all coordinates that code need not look at each
    // place whether it is there. For shorter rows the trait's own body stands here again: nothing calls a body that is replaced.
    fn spread_by_product(&self, i: usize, amount: u8, query: &[u8], elements: &mut [u8]) -> u8 {
        if query.len() < self.dimension || elements.len() < 6 * self.dimension {
            let e = self.u_product(i, query);
            self.spread(i, amount, usize::from(e), elements);
            return e;
        }
        match self.letters {
            1 => self.spread_own::<1>(i, amount, query, elements),
            2 => self.spread_own::<2>(i, amount, query, elements),
            3 => self.spread_own::<3>(i, amount, query, elements),
            4 => self.spread_own::<4>(i, amount, query, elements),
            _ => self.spread_own::<5>(i, amount, query, elements),
        }
    }
}
