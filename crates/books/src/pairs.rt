// The pairs of a book's positions, tried against the matching rule.
ghost use Rattle.std.specs.Prelude.{◌≡◌, ◌<◌, IfSome, MatchOption};
ghost use Rattle.family.specs.Vectors.{allowed};
ghost use Rattle.books.specs.BookVectors.{book_vectors};
ghost use Rattle.books.specs.Numbers.{count_of};
ghost use Rattle.books.specs.Pairs.{fits, bad_partner, bad_pair};

use crate::book_rows::BookRows;

// Whether the matching rule allows a product at positions i and j.
fn is_allowed(i: usize, j: usize, product: u8) -> bool
    ensures { result ≡ allowed i j product }
{
    if i == j {
        product == 0
    } else {
        matches!(product, 1 | 3 | 4)
    }
}

impl BookRows<'_> {
    // Whether positions i and j keep the matching rule.
    fn fits(&self, i: usize, j: usize) -> bool
        ensures { result ≡ fits (book_vectors self.now.bytes.now) i j }
    {
        let v = self.v(j);
        is_allowed(i, j, self.u_product(i, v))
    }

    // The first j that does not fit with i.
    fn bad_partner(&self, i: usize) -> Option<usize>
        ensures { MatchOption result
            (bad_partner (book_vectors self.now.bytes.now) i ≡ count_of self.now.bytes.now)
            (λ j. (j ≡ bad_partner (book_vectors self.now.bytes.now) i) × (j < count_of self.now.bytes.now)) }
    {
        (0..self.count).find(|j| !self.fits(i, *j))
    }

    // The first pair that breaks the matching rule, by i and then by j.
    pub(crate) fn bad_pair(&self) -> Option<(usize, usize)>
        ensures value { result ≡ bad_pair (book_vectors self.now.bytes.now) }
        ensures first { IfSome result (λ p. p.0 < self.now.count) }
        ensures second { IfSome result (λ p. p.1 < self.now.count) }
    {
        (0..self.count).find_map(|i| self.bad_partner(i).map(|j| (i, j)))
    }
}
