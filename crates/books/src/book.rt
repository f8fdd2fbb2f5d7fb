// Books: families that are read from bytes and checked.
pub mod as_family;

ghost use Rattle.std.specs.Prelude.{◌≡◌, false, is_some};
ghost use Rattle.books.specs.Books.{book_fault};
ghost use Rattle.books.specs.Numbers.{count_of, dimension_of};

use crate::book_rows::BookRows;
use crate::report::examine;
use faults::Fault;

// A book: a family as bytes. Its dimension stands in 2 bytes; then come two sections, the vectors u and the vectors v,
// each as the count of positions in 4 bytes and the vectors' digits, a byte each, position by position. Numbers have
// their most significant byte first.
#[derive(Drop)]
pub struct Book {
    bytes: Vec<u8>,
    count: usize,
    dimension: usize,
    ghost accepted: { is_some (book_fault bytes.items) ≡ false },
    ghost counted: { count ≡ count_of bytes.items },
    ghost wide: { dimension ≡ dimension_of bytes.items },
}

impl TryFrom<Vec<u8>> for Book {
    ghost use Rattle.books.specs.Reading.{Reads};

    type Error = Fault;

    ghost try_from_gives = { λ bytes result. Reads bytes result };

    // Reads a book. It is accepted exactly where its layout is in order and its vectors are a matching family. One whose
    // layout is in order is refused, if it is, with the first pair that breaks the matching rule.
    #[tactic(auto, unfolding(crate::specs::Layout::layout_fault))]
    fn try_from(bytes: Vec<u8>) -> Result<Book, Fault> {
        let report = examine(bytes.as_slice());
        report.verdict?;
        // a book that is accepted has told both
        let count = report.positions.unwrap();
        let dimension = report.dimension.unwrap();
        Ok(Book {
            bytes,
            count,
            dimension,
        })
    }
}

impl Book {
    // Its vectors, as rows of its bytes.
    fn rows(&self) -> BookRows<'_>
        ensures bytes { result.bytes.now ≡ self.now.bytes.items }
        ensures count { result.count ≡ self.now.count }
        ensures dimension { result.dimension ≡ self.now.dimension }
    {
        BookRows {
            bytes: self.bytes.as_slice(),
            count: self.count,
            dimension: self.dimension,
        }
    }
}
