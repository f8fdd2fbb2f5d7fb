// The interface of every kind of family.
ghost use Rattle.std.specs.Prelude.{◌≡◌};
ghost use Rattle.digits.specs.Rows.{at};
ghost use Rattle.digits.specs.Sums.{product};
ghost use Rattle.family.specs.Added.{added};
ghost use Rattle.family.specs.ElementProducts.{element_product};
ghost use Rattle.family.specs.Spread.{spread};
ghost use Rattle.family.specs.Vectors.{Vectors, MatchingFamily};

use digits::{Element, add_at};

// A matching family: for each position i below a count, two vectors of digits u(i) and v(i) of one dimension, such
// that u(i) times v(i) is 0 and u(i) times v(j) is 1, 3 or 4 for all i other than j. (The usual name is a matching
// vector family.) What is proved of code that takes any family is proved from this rule alone.
// Telling refuses nothing and alters nothing; beyond the last position or coordinate both digits are 0.
pub trait Family {
    // what a family means: its count, its dimension, and the digits of its vectors
    ghost vectors: { Self → Vectors };

    // How many positions there are, from 1 to 1,048,576.
    fn count(&self) -> usize
        ensures { result ≡ (vectors self.now).count };

    // How many digits a vector has, from 1 to 4,096.
    fn dimension(&self) -> usize
        ensures { result ≡ (vectors self.now).dim };

    // Digit c of u(i).
    fn u(&self, i: usize, c: usize) -> u8
        ensures { result ≡ (vectors self.now).u i c };

    // Digit c of v(i).
    fn v(&self, i: usize, c: usize) -> u8
        ensures { result ≡ (vectors self.now).v i c };

    // Adds v(i) to a row, digit by digit. Where v(i) is 0 nothing changes; digits past the row's end are passed over.
    #[tactic(auto, using(crate::proofs::Adding::added_all))]
    fn add_v(&self, i: usize, row: &mut [u8])
        ensures { row.new ≡ added ((vectors self.now).v i) row.old }
    {
        // by coordinate, not along `row.iter_mut().enumerate()`: after that a proof knows no byte of the row
        for c in 0..row.len() {
            let d = self.v(i, c);
            if d != 0 {
                add_at(row, c, u32::from(d));
            }
        }
    }

    // The product of u(i) and a row; digits past the row's end count as 0.
    #[tactic(auto, using(digits::proofs::Sums::product_none, digits::proofs::Sums::product_more))]
    fn u_product(&self, i: usize, row: &[u8]) -> u8
        ensures { result ≡ product (vectors self.now).dim ((vectors self.now).u i) (at row.now) }
    {
        let mut sum = 0;
        let within = row.len().min(self.dimension());
        for (c, digit) in row[..within].iter().enumerate() {
            sum = (sum + u32::from(self.u(i, c)) * u32::from(*digit)) % 6;
        }
        sum as u8
    }

    // Adds the amount times u(i) times the power e of g to the elements of all coordinates, which stand one after the
    // other. Where u(i) is 0, and at the places of other powers, nothing changes; places past the row's end are passed over.
    fn spread(&self, i: usize, amount: u8, e: usize, elements: &mut [u8])
        ensures { elements.new ≡ spread ((vectors self.now).u i) amount e elements.old }
    {
        // by coordinate, not along `elements.chunks_mut(6)`: after that a proof knows no byte of the row
        for c in 0..self.dimension() {
            let d = self.u(i, c);
            if d != 0 {
                add_at(elements, 6 * c + e % 6, u32::from(amount) * u32::from(d));
            }
        }
    }

    // The product of v(i) and the elements of all coordinates, which stand one after the other: the sum of v(i)c times the element
    // of c. Digits past the row's end count as 0.
    #[tactic(auto, using(digits::proofs::RingSums::sum_start, digits::proofs::RingSums::sum_more))]
    fn v_product(&self, i: usize, elements: &[u8]) -> Element
        ensures { result.digits ≡ element_product (vectors self.now).dim ((vectors self.now).v i) elements.now }
    {
        // a loop: its proof is found, that of a `fold` is not, since what a turn is given does not say how many came before
        let mut sum = Element::zero();
        for c in 0..self.dimension() {
            sum = sum + Element::read_at(elements, 6 * c).scaled(self.v(i, c));
        }
        sum
    }

    // Spreads the amount with the product of u(i) and a query as the exponent, and tells that product. A host wants both for
    // each of its entries, and some kinds of family find them together faster than one after the other.
    fn spread_by_product(&self, i: usize, amount: u8, query: &[u8], elements: &mut [u8]) -> u8
        ensures product { result ≡ product (vectors self.now).dim ((vectors self.now).u i) (at query.now) }
        ensures spread { elements.new ≡ spread ((vectors self.now).u i) amount result elements.old }
    {
        // families of words write these lines too, beside a faster way: a function for both would ask for all that the trait
        // says of Self, and the body of one of its own methods cannot hand that on
        let e = self.u_product(i, query);
        self.spread(i, amount, usize::from(e), elements);
        e
    }

    // the law that each kind is proved to keep: the limits of a family, its digits, and the matching rule
    ghost matching: { (f : Self) → MatchingFamily (vectors f) };
}
