// A book as a family.
ghost use Rattle.books.specs.BookVectors.{book_vectors};
ghost use Rattle.books.specs.Accepting.{accepted_none};
ghost use Rattle.books.specs.Telling.{book_family};

use crate::book::Book;
use digits::digit_at;
use family::Family;

impl Family for Book {
    ghost vectors = { λ b. book_vectors b.bytes.items };

    ghost matching = { λ b. book_family b.bytes.items (accepted_none b.bytes.items b.accepted) };

    fn count(&self) -> usize {
        self.count
    }

    fn dimension(&self) -> usize {
        self.dimension
    }

    fn u(&self, i: usize, c: usize) -> u8 {
        digit_at(self.rows().u(i), c)
    }

    fn v(&self, i: usize, c: usize) -> u8 {
        digit_at(self.rows().v(i), c)
    }

    // The digits of u(i) stand one after the other, so they are multiplied as a row.
    fn u_product(&self, i: usize, row: &[u8]) -> u8 {
        self.rows().u_product(i, row)
    }
}
