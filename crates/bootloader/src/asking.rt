// The call that begins a lookup: the two queries for a position, and the shift.
ghost use Rattle.std.specs.Prelude.{◌≡◌, length, Some, None, MatchOption, MatchResult, take, drop};
ghost use Rattle.faults.specs.Faults.{number_of};
ghost use Rattle.digits.specs.Rows.{at, Digits};
ghost use Rattle.scheme.specs.Law.{Recovers, Hides};
ghost use Rattle.scheme.specs.Queries.{second_query};
ghost use Rattle.scheme.specs.Runs.{ready, waiting, request, asked, Step};
ghost use Rattle.scheme.specs.Sessions.{Session, opened, next_digits, after_request};
ghost use Rattle.words.specs.Words.{word_dim, word_vectors};
ghost use Rattle.words.specs.Sizes.{letters_of, alphabet_of};
ghost use Rattle.bootloader.specs.Calls.{asked_fault, shift_row};

use crate::status::status;
use digits::{check_below, check_digits, check_length};
use family::Family;
use faults::{Fault, Layer};
use session::write_queries;
use words::Words;

// The family of words that a request is for, with the tape's digits for it, or what is amiss with it.
fn check_request<'a>(
    h: u32,
    q: u32,
    position: u32,
    tape: &'a [u8],
    first: &[u8],
    second: &[u8],
    shift: &[u8],
) -> Result<(Words, &'a [u8]), Fault>
    ensures { let fault = asked_fault h q position tape.now first.now second.now shift.now in
        MatchResult result
        (λ r. (fault ≡ None) × (letters_of r.0 ≡ h) × (alphabet_of r.0 ≡ q) × (r.1.now ≡ take (word_dim h q) tape.now)
        × (length shift.now ≡ 1))
        (λ e. fault ≡ Some e) }
{
    let family = Words::new(h as usize, q as usize)?;
    let k = family.dimension();
    check_length(first, k)?;
    check_length(second, k)?;
    check_length(shift, 1)?;
    check_below(Layer::Session, family.count(), position as usize)?;
    let digits = tape.get(..k).ok_or(Fault::spent(tape.len()))?;
    check_digits(tape)?;
    Ok((family, digits))
}

// Writes the queries and the shift, or refuses and leaves all three rows.
fn write_request(
    h: u32,
    q: u32,
    position: u32,
    tape: &[u8],
    first: &mut [u8],
    second: &mut [u8],
    shift: &mut [u8],
) -> Result<(), Fault>
    ensures { let f = word_vectors h q in let z = next_digits (opened f tape.now) in
        MatchResult result
        (λ _. (asked_fault h q position tape.now first.old second.old shift.old ≡ None)
        × (first.new ≡ z) × (second.new ≡ second_query f position z) × (shift.new ≡ shift_row f position z))
        (λ e. (asked_fault h q position tape.now first.old second.old shift.old ≡ Some e)
        × (first.new ≡ first.old) × (second.new ≡ second.old) × (shift.new ≡ shift.old)) }
{
    let (family, digits) = check_request(h, q, position, tape, first, second, shift)?;
    shift[0] = write_queries(&family, position as usize, digits, first, second);
    Ok(())
}

// The two queries of a lookup, made with a tape's first digits, and the shift, for words of h letters from an alphabet of q.
#[unsafe(no_mangle)]
pub extern "C" fn visordate_request(
    h: u32,
    q: u32,
    position: u32,
    tape: &[u8],
    first: &mut [u8],
    second: &mut [u8],
    shift: &mut [u8],
) -> u32
    ensures cases { let f = word_vectors h q in let z = next_digits (opened f tape.now) in
        MatchOption (asked_fault h q position tape.now first.old second.old shift.old)
        ((result ≡ 0) × (first.new ≡ z) × (second.new ≡ second_query f position z) × (shift.new ≡ shift_row f position z))
        (λ e. (result ≡ number_of e.cause) × (first.new ≡ first.old) × (second.new ≡ second.old) × (shift.new ≡ shift.old)) }
    ensures step { let f = word_vectors h q in
        (s : Session) → s.count ≡ f.count → s.dim ≡ f.dim → drop s.place s.tape ≡ tape.now → result ≡ 0 →
        Step (ready s) (request f position f.dim f.dim) (asked first.new second.new) (waiting (after_request s) position (at shift.new 0)) }
    ensures digits { result ≡ 0 → Digits tape.now }
    ensures recovers { Recovers (word_vectors h q) }
    ensures hides { Hides (word_vectors h q) }
{
    status(write_request(h, q, position, tape, first, second, shift))
}
