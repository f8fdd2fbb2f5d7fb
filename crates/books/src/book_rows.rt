// The vectors of a book whose layout is in order, as rows of its bytes.
ghost use Rattle.std.specs.Prelude.{◌≡◌, ℕ, ◌+◌, ◌*◌, ◌≤◌, false, is_some, length, if◌then◌else◌, nat_lt};
ghost use Rattle.digits.specs.Rows.{at};
ghost use Rattle.digits.specs.Sums.{product};
ghost use Rattle.books.specs.BookVectors.{digit_from, book_vectors};
ghost use Rattle.books.specs.Layout.{layout_fault};
ghost use Rattle.books.specs.Numbers.{count_of, dimension_of};

use digits::dot;

// How many bytes the dimension has.
const DIMENSION_LEN: usize = 2;

// How many bytes each of the two counts has.
const COUNT_LEN: usize = 4;

// Where the digits of the first section begin.
const FIRST_START: usize = DIMENSION_LEN + COUNT_LEN;

// A book's bytes, with the numbers that they begin with: all that its vectors are found by.
#[derive(Clone, Copy)]
pub(crate) struct BookRows<'a> {
    pub(crate) bytes: &'a [u8],
    pub(crate) count: usize,
    pub(crate) dimension: usize,
    ghost order: { is_some (layout_fault bytes.now) ≡ false },
    ghost counted: { count ≡ count_of bytes.now },
    ghost wide: { dimension ≡ dimension_of bytes.now },
}

impl<'a> BookRows<'a> {
    // The vector at a position, in the section whose digits begin at a place; past the last position it is empty.
    fn row(&self, start: usize, i: usize) -> &'a [u8]
        requires { start + self.now.count * self.now.dimension ≤ length self.now.bytes.now }
        ensures digits { (c : ℕ) → at result.now c ≡ digit_from start self.now.bytes.now i c }
        ensures length { length result.now ≡ (if nat_lt i self.now.count then self.now.dimension else 0) }
    {
        if i < self.count {
            let from = start + i * self.dimension;
            &self.bytes[from..from + self.dimension]
        } else {
            &[]
        }
    }

    // The vector u(i).
    #[tactic(auto, using(crate::proofs::Room::room))]
    pub(crate) fn u(&self, i: usize) -> &'a [u8]
        ensures digits { (c : ℕ) → at result.now c ≡ (book_vectors self.now.bytes.now).u i c }
        ensures length { length result.now ≡ (if nat_lt i self.now.count then self.now.dimension else 0) }
    {
        self.row(FIRST_START, i)
    }

    // The vector v(i). Its section stands behind the first one and the second count.
    #[tactic(auto, using(crate::proofs::Room::room))]
    pub(crate) fn v(&self, i: usize) -> &'a [u8]
        ensures { (c : ℕ) → at result.now c ≡ (book_vectors self.now.bytes.now).v i c }
    {
        self.row(FIRST_START + self.count * self.dimension + COUNT_LEN, i)
    }

    // The product of u(i) and a row; digits past the row's end count as 0.
    #[tactic(auto, using(crate::proofs::Products::u_times))]
    pub(crate) fn u_product(&self, i: usize, row: &[u8]) -> u8
        ensures { result ≡ product (dimension_of self.now.bytes.now) ((book_vectors self.now.bytes.now).u i) (at row.now) }
    {
        dot(self.u(i), row)
    }
}
