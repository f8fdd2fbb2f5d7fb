// Numbers in base ten, and how a row of bytes falls into fields.
ghost use Rattle.std.specs.Prelude.{◌≡◌, IfOk, map};
ghost use Rattle.std.specs.Char.{is_ascii_digit};
ghost use Rattle.std.specs.List.{list_all};
ghost use Rattle.inquiry.specs.Grammar.{parts_at, number_in, numbers_of, line_numbers};
ghost use Rattle.inquiry.specs.Stops.{ReadsAs};

use crate::stop::Stop;
use std::alloc::{AllocError, Global};

// Whether each byte of a field is a digit of base ten.
fn all_digits(field: &[u8]) -> bool
    ensures { result ≡ list_all is_ascii_digit field.now }
{
    field.iter().all(u8::is_ascii_digit)
}

// A field as a number, or none where it is no number. The test comes first, since `parse` lets a plus sign pass.
#[tactic(auto, using(crate::proofs::Parsing::numerals))]
fn number(field: &[u8]) -> Option<u32>
    ensures { result ≡ number_in field.now }
{
    if !all_digits(field) {
        return None;
    }
    str::from_utf8(field).ok()?.parse().ok()
}

// All fields as numbers. (A loop with `?`: of `try_collect` a proof does not know that it fails where one field is no number.)
fn numbers_of(heap: Global, fields: &[&[u8]]) -> Result<Vec<u32>, Stop>
    ensures { ReadsAs (λ v. v.items) (numbers_of (map (λ x. x.now) fields.now)) result }
{
    let mut numbers = Vec::new(heap);
    for field in fields {
        numbers.push(number(field).ok_or(Stop::Form)?)?;
    }
    Ok(numbers)
}

// The parts of a row of bytes between the bytes that equal a mark.
pub(crate) fn parts_at(heap: Global, mark: u8, bytes: &[u8]) -> Result<Vec<&[u8]>, AllocError>
    ensures { IfOk result (λ v. map (λ x. x.now) v.items ≡ parts_at mark bytes.now) }
{
    bytes.split(|b| *b == mark).collect(heap)
}

// The numbers of a line, or none where it is no line of numbers.
pub(crate) fn line_numbers(heap: Global, line: &[u8]) -> Result<Vec<u32>, Stop>
    ensures { ReadsAs (λ v. v.items) (line_numbers line.now) result }
{
    if line.is_empty() {
        return Ok(Vec::new(heap));
    }
    numbers_of(heap, parts_at(heap, b' ', line)?.as_slice())
}
