// A position's own coordinates: those where its vectors are not 0.
ghost use Rattle.std.specs.Prelude.{◌≡◌, ◌/◌, ◌<◌};
ghost use Rattle.digits.specs.Rows.{row};
ghost use Rattle.words.specs.Own.{own_or_none};
ghost use Rattle.words.specs.Words.{letter};

use crate::words::Words;
use arrayvec::ArrayVec;

impl Words {
    // The letters of a position, which are its digits in base q, the most significant first. They are bytes: in sums with wider
    // ones the compiler puts a letter's definition for the letter, and multiplies more often. That H is the number of letters is
    // asked here, of `own_of` and of `spread_own`: it ties a field to a constant argument, which no field can be.
    #[inline(always)]
    #[tactic(auto, using(crate::proofs::Lettering::written_all))]
    fn spell<const H: usize>(&self, t: usize) -> [u8; H]
        requires fits { self.now.letters ≡ H }
        requires small { t < 1048576 }
        ensures { result ≡ row self.now.letters (letter self.now.letters self.now.alphabet t) }
    {
        let mut word = [0; H];
        let mut rest = t;
        // The loop counts places, since no invariant can name what is written through `word.iter_mut().rev()`.
        for place in (0..H).rev() {
            let before = self.divided(rest);
            word[place] = (rest - before * self.alphabet) as u8;
            rest = before;
        }
        word
    }

    // A number divided by the alphabet: multiplied by the inverse and shifted, which is exact for numbers so small. Divisions,
    // up to five for each position, took a quarter of the time of a dense host's answer.
    #[tactic(auto, using(crate::proofs::Dividing::divided))]
    fn divided(&self, n: usize) -> usize
        requires { n < 1048576 }
        ensures { result ≡ n / self.now.alphabet }
    {
        (n * self.inverse) >> 32
    }

    // The own coordinates in rising order: coordinate 0, one for each place, and one for each two places. Past the last
    // position there are none. H is the number of letters: the compiler knows it, and writes the loops out. They stand in one
    // function, so that no clause has to say what is found in between.
    #[inline(always)]
    #[tactic(auto, using(crate::specs::Limits::count_few, crate::proofs::Finding::singles_last, crate::proofs::Finding::pairs_last))]
    pub(super) fn own_of<const H: usize>(&self, t: usize) -> ArrayVec<usize, 16>
        requires { self.now.letters ≡ H }
        ensures { result.items ≡ own_or_none self.now.letters self.now.alphabet t }
    {
        let mut own = ArrayVec::new();
        if t >= self.count {
            return own;
        }
        let letters = self.spell::<H>(t);
        let word = &letters[..];
        own.push(0);
        let mut block = 1;
        for letter in word {
            own.push(block + usize::from(*letter));
            block += self.alphabet;
        }
        for (place, first) in word.iter().enumerate() {
            for second in &word[place + 1..] {
                own.push(block + usize::from(*first) * self.alphabet + usize::from(*second));
                block += self.alphabet * self.alphabet;
            }
        }
        own
    }

    // The own coordinates, whatever the number of letters. `spread_by_product` has the same five arms: what they call takes a
    // constant, which no closure does, and a macro for two places would be no plainer.
    pub(super) fn own(&self, t: usize) -> ArrayVec<usize, 16>
        ensures { result.items ≡ own_or_none self.now.letters self.now.alphabet t }
    {
        match self.letters {
            1 => self.own_of::<1>(t),
            2 => self.own_of::<2>(t),
            3 => self.own_of::<3>(t),
            4 => self.own_of::<4>(t),
            _ => self.own_of::<5>(t),
        }
    }
}
