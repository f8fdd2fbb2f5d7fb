// Numbers in base ten.
ghost use Rattle.std.specs.Prelude.{◌≡◌, ℕ, List, Result, refl};
ghost use Rattle.std.specs.Result.{result_unwrap_or};
ghost use Rattle.std.specs.declared.num.ParseIntError.{ParseIntError};
ghost use Rattle.notation.specs.Numbers.{number_up_to};
ghost use Rattle.notation.specs.Reading.{read_unsigned};

use std::num::ParseIntError;
use std::str::FromStr;

// A kind of number that a word can write, with the largest there is.
pub trait Bounded: FromStr<Err = ParseIntError> + Drop {
    const MAX: Self;

    // that number, as proofs name it
    ghost MAX: { Self };

    // the number that a word writes
    ghost written: { List ℕ → Self };

    // what `parse` gives is that number, and the largest stands where it gives none
    ghost reads: { (word : List ℕ) (r : Result Self ParseIntError) → Self.from_str_gives word r → result_unwrap_or r MAX ≡ written word };
}

impl Bounded for u8 {
    const MAX: u8 = u8::MAX;

    ghost MAX = { 255 };

    ghost written = { number_up_to 255 };

    ghost reads = { λ word r h. read_unsigned 8 255 word r refl (h.0) };
}

impl Bounded for usize {
    const MAX: usize = usize::MAX;

    ghost MAX = { 18446744073709551615 };

    ghost written = { number_up_to 18446744073709551615 };

    ghost reads = { λ word r h. read_unsigned 64 18446744073709551615 word r refl (h.0) };
}

// The number that a word writes in base ten, or the largest there is where it writes none.
pub fn number<N: Bounded>(word: &str) -> N
    ensures { result ≡ N.written word.now }
{
    word.parse().unwrap_or(N::MAX)
}
