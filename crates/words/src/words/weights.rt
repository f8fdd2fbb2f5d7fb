// The weights of v's coordinates.
ghost use Rattle.std.specs.Prelude.{◌≡◌};
ghost use Rattle.words.specs.Words.{weight, size_at};

use crate::words::Words;

// By the number of letters, from none on: the weights of coordinates for no place, one place and two places.
const WEIGHTS: [[u8; 3]; 6] = [
    [0, 0, 0],
    [1, 5, 0],
    [4, 3, 2],
    [3, 1, 2],
    [4, 5, 2],
    [1, 3, 2],
];

impl Words {
    // The weight of a coordinate in v, by the number of places that it stands for.
    pub(super) fn weight(&self, c: usize) -> u8
        ensures { result ≡ weight self.now.letters (size_at self.now.letters self.now.alphabet c) }
    {
        WEIGHTS[self.letters][self.size_at(c)]
    }

    // For how many places a coordinate stands.
    fn size_at(&self, c: usize) -> usize
        ensures { result ≡ size_at self.now.letters self.now.alphabet c }
    {
        if c == 0 {
            0
        } else if c <= self.letters * self.alphabet {
            1
        } else {
            2
        }
    }
}
