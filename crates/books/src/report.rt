// The examination of a book, and what it tells.
ghost use Rattle.std.specs.Prelude.{◌≡◌, Some, None, IfOk};
ghost use Rattle.std.specs.Result.{result_err};
ghost use Rattle.books.specs.BookVectors.{book_vectors};
ghost use Rattle.books.specs.Books.{book_fault, told_dimension, told_count, told_pairs};
ghost use Rattle.books.specs.Layout.{layout_fault};
ghost use Rattle.books.specs.Numbers.{count_of};
ghost use Rattle.books.specs.Pairs.{bad_pair, pairs_fault, tried};

use crate::book_rows::BookRows;
use crate::reader::Reader;
use digits::check_limits;
use faults::{Fault, Layer};

// The highest dimension of a book.
const MOST_COORDINATES: usize = 4096;

// The highest count of a book.
const MOST_POSITIONS: usize = 1024;

// What an examination has found when it ends: each part for itself, as programs print them.
#[derive(Clone, Copy)]
pub struct Report {
    // the dimension, once it is read and within its limits
    pub dimension: Option<usize>,
    // how many positions there are, once that is read and within its limits
    pub positions: Option<usize>,
    // how many pairs were tried, once the layout is in order
    pub pairs: Option<usize>,
    // the fault with which the book is refused, if it is
    pub verdict: Result<(), Fault>,
}

impl Report {
    // Reads the layout, and tells the dimension and the count on the way.
    #[tactic(auto, unfolding(crate::specs::Layout::layout_fault))]
    fn read_layout<'a>(&mut self, bytes: &'a [u8]) -> Result<BookRows<'a>, Fault>
        requires dimension_open { self.old.dimension ≡ None }
        requires positions_open { self.old.positions ≡ None }
        ensures dimension { self.new.dimension ≡ told_dimension bytes.now }
        ensures positions { self.new.positions ≡ told_count bytes.now }
        ensures pairs { self.new.pairs ≡ self.old.pairs }
        ensures fault { result_err result ≡ layout_fault bytes.now }
        ensures rows { IfOk result (λ rows. rows.bytes.now ≡ bytes.now) }
    {
        let mut reader = Reader::new(bytes);
        let dimension = reader.dimension()?;
        check_limits(Layer::Family, 1, MOST_COORDINATES, dimension)?;
        self.dimension = Some(dimension);
        let count = reader.count()?;
        check_limits(Layer::Family, 1, MOST_POSITIONS, count)?;
        self.positions = Some(count);
        reader.sections(count, dimension)?;
        Ok(BookRows {
            bytes,
            count,
            dimension,
        })
    }

    // Tries the pairs, and tells how many up to the first bad one.
    #[tactic(auto, using(crate::proofs::Room::room))]
    fn try_pairs(&mut self, rows: &BookRows) -> Result<(), Fault>
        ensures pairs { self.new.pairs ≡ Some (tried (count_of rows.now.bytes.now) (bad_pair (book_vectors rows.now.bytes.now))) }
        ensures fault { result_err result ≡ pairs_fault (book_vectors rows.now.bytes.now) }
        ensures dimension { self.new.dimension ≡ self.old.dimension }
        ensures positions { self.new.positions ≡ self.old.positions }
    {
        match rows.bad_pair() {
            None => {
                self.pairs = Some(rows.count * rows.count);
                Ok(())
            }
            Some((i, j)) => {
                self.pairs = Some(i * rows.count + j + 1);
                Err(Fault::unmatched(i, j))
            }
        }
    }
}

// Examines a book front to back: its layout first, then its pairs.
pub fn examine(bytes: &[u8]) -> Report
    ensures dimension { result.dimension ≡ told_dimension bytes.now }
    ensures positions { result.positions ≡ told_count bytes.now }
    ensures pairs { result.pairs ≡ told_pairs bytes.now }
    ensures verdict { result_err result.verdict ≡ book_fault bytes.now }
{
    let mut report = Report {
        dimension: None,
        positions: None,
        pairs: None,
        verdict: Ok(()),
    };
    // by a `match`: `?` would want one more method with these four clauses, and after an `and_then` whose closure changes the
    // report a proof knows nothing of it
    report.verdict = match report.read_layout(bytes) {
        Ok(rows) => report.try_pairs(&rows),
        Err(fault) => Err(fault),
    };
    report
}
