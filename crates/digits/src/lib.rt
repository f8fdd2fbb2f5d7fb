// Digits modulo 6: rows, also as text, limits, the product of two vectors, elements of six digits, and tapes.

#![tactic(auto)]

pub mod element;
pub mod limits;
pub mod product;
pub mod rows;
pub mod spaced;
pub mod tape;

pub use element::Element;
pub use limits::{check_below, check_equal, check_limits};
pub use product::{dot, vector_product};
pub use rows::{
    add_at, check_digit, check_digits, check_length, check_row, digit_at, first_above, reduce,
    rest_at,
};
pub use spaced::Spaced;
pub use tape::draw;
