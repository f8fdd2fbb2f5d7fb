// Trials of a family: its sizes, the vectors of a position, and the product and the spreading of one with a row.
use digits::Spaced;
use family::Family;
use notation::{Unanswered, bytes_of, number};
use std::alloc::{AllocError, Global};

// What a line's last words ask of a family.
pub(crate) fn ask<F: Family>(
    heap: Global,
    family: &F,
    words: &[&str],
) -> Result<String, Unanswered> {
    let answer = match words {
        [] => sizes(heap, family)?,
        [i] => vectors(heap, family, number(i))?,
        [i, amount, e, row] => worked(
            heap,
            family,
            number(i),
            number(amount),
            number(e),
            bytes_of(heap, row)?,
        )?,
        _ => return Err(Unanswered::Unclear("no such trial of a family")),
    };
    Ok(answer)
}

// The count and the dimension.
fn sizes<F: Family>(heap: Global, family: &F) -> Result<String, AllocError> {
    format!(in heap; "count {} dimension {}", family.count(), family.dimension())
}

// The vectors of a position, with one digit past the last coordinate.
fn vectors<F: Family>(heap: Global, family: &F, i: usize) -> Result<String, AllocError> {
    let past = family.dimension().saturating_add(1);
    let u: Vec<u8> = (0..past).map(|c| family.u(i, c)).collect(heap)?;
    let v: Vec<u8> = (0..past).map(|c| family.v(i, c)).collect(heap)?;
    format!(in heap; "u{} v{}", Spaced(&u), Spaced(&v))
}

// The product of a position's u with a row, and that row once an amount is spread over it.
fn worked<F: Family>(
    heap: Global,
    family: &F,
    i: usize,
    amount: u8,
    e: usize,
    mut row: Vec<u8>,
) -> Result<String, AllocError> {
    let product = family.u_product(i, &row);
    family.spread(i, amount, e, &mut row);
    format!(in heap; "product {product} spread{}", Spaced(&row))
}
