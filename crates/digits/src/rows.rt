// Rows of digits: reading a digit or the rest of a row, adding to a digit, reducing a row, and refusing one that is none.
ghost use Rattle.std.specs.Prelude.{◌≡◌, ◌+◌, ◌%◌, ◌<◌, length, Some, None, MatchOption, MatchResult, OnOk, slice_set, drop};
ghost use Rattle.digits.specs.Refusals.{digits_fault, lone_fault, long_fault, row_fault};
ghost use Rattle.digits.specs.Rows.{at, Digits, first_above, reduced};

use faults::Fault;

// The digit at a place of a row; past the end it is 0.
pub fn digit_at(row: &[u8], place: usize) -> u8
    ensures { result ≡ at row.now place }
{
    row.get(place).copied().unwrap_or(0)
}

// What a row has from a place on; past the row's end there is nothing.
pub fn rest_at(row: &[u8], place: usize) -> &[u8]
    ensures { result.now ≡ drop place row.now }
{
    row.get(place..).unwrap_or(&[])
}

// The place of the first byte above 5, if there is one.
pub fn first_above(row: &[u8]) -> Option<usize>
    ensures { MatchOption result (first_above row.now ≡ length row.now) (λ i. (i ≡ first_above row.now) × (i < length row.now)) }
{
    row.iter().position(|x| *x > 5)
}

// Refuses a lone digit above 5, which has place 0.
pub fn check_digit(digit: u8) -> Result<(), Fault>
    ensures { MatchResult result (λ _. lone_fault digit ≡ None) (λ e. lone_fault digit ≡ Some e) }
{
    if digit < 6 {
        Ok(())
    } else {
        Err(Fault::digit(0))
    }
}

// Refuses a row of another length.
pub fn check_length(row: &[u8], len: usize) -> Result<(), Fault>
    ensures cases { MatchResult result (λ _. long_fault len row.now ≡ None) (λ e. long_fault len row.now ≡ Some e) }
    ensures fits { OnOk result (length row.now ≡ len) }
{
    if row.len() == len {
        Ok(())
    } else {
        Err(Fault::length(row.len()))
    }
}

// Refuses a row that holds a byte above 5, naming the place of the first.
#[tactic(auto, using(crate::proofs::RowLaws::above_none))]
pub fn check_digits(row: &[u8]) -> Result<(), Fault>
    ensures cases { MatchResult result (λ _. digits_fault row.now ≡ None) (λ e. digits_fault row.now ≡ Some e) }
    ensures fits { OnOk result (Digits row.now) }
{
    match first_above(row) {
        None => Ok(()),
        Some(place) => Err(Fault::digit(place)),
    }
}

// Refuses a row that is not so many digits: for its length, else for its first byte above 5.
pub fn check_row(row: &[u8], len: usize) -> Result<(), Fault>
    ensures cases { MatchResult result (λ _. row_fault len row.now ≡ None) (λ e. row_fault len row.now ≡ Some e) }
    ensures fits { OnOk result ((length row.now ≡ len) × Digits row.now) }
{
    check_length(row, len)?;
    check_digits(row)
}

// Adds to the digit at a place, modulo 6; a place past the row's end is passed over.
pub fn add_at(row: &mut [u8], place: usize, amount: u32)
    ensures { row.new ≡ slice_set row.old place ((at row.old place + amount) % 6) }
{
    // by index: after `get_mut` a proof knows no byte of the row, so it did not close
    if place < row.len() {
        row[place] = ((u64::from(row[place]) + u64::from(amount)) % 6) as u8;
    }
}

// Takes each byte of a row modulo 6.
#[tactic(auto, using(crate::proofs::RowLaws::reduced_all))]
pub fn reduce(row: &mut [u8])
    ensures { row.new ≡ reduced row.old }
{
    for digit in row.iter_mut() {
        *digit %= 6;
    }
}
