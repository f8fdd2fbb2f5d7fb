// The call that ends a lookup: the entry that two sheets come to.
ghost use Rattle.std.specs.Prelude.{◌≡◌, ◌∷◌, [], length, Some, None, Ok, Err, MatchResult};
ghost use Rattle.faults.specs.Faults.{number_of, at_odds_fault};
ghost use Rattle.digits.specs.Rows.{at};
ghost use Rattle.scheme.specs.Runs.{ready, waiting, recover, recovered, Step};
ghost use Rattle.scheme.specs.Sessions.{Session, after_reading, after_loss};
ghost use Rattle.words.specs.Words.{word_vectors};
ghost use Rattle.words.specs.Sizes.{letters_of, alphabet_of};
ghost use Rattle.bootloader.specs.Calls.{recover_call_fault, call_outcome};

use crate::status::status;
use digits::{check_below, check_digits, check_length};
use family::Family;
use faults::{Fault, Layer};
use scheme::sheet_size;
use session::read_sheets;
use words::Words;

// The family of words that a recovery is for, or what is amiss with it before its sheets are read.
fn check_recovery(
    h: u32,
    q: u32,
    position: u32,
    shift: &[u8],
    one: &[u8],
    two: &[u8],
    entry: &[u8],
) -> Result<Words, Fault>
    ensures { let fault = recover_call_fault h q position shift.now one.now two.now entry.now in
        MatchResult result
        (λ f. (fault ≡ None) × (letters_of f ≡ h) × (alphabet_of f ≡ q) × (length shift.now ≡ 1) × (length entry.now ≡ 1))
        (λ e. fault ≡ Some e) }
{
    let family = Words::new(h as usize, q as usize)?;
    let size = sheet_size(&family);
    check_length(shift, 1)?;
    check_length(one, size)?;
    check_length(two, size)?;
    check_length(entry, 1)?;
    check_below(Layer::Session, family.count(), position as usize)?;
    check_digits(shift)?;
    Ok(family)
}

// Writes the entry that two sheets come to for a position and a row of one shift, or refuses and leaves the row for it.
fn write_entry(
    h: u32,
    q: u32,
    position: u32,
    shift: &[u8],
    one: &[u8],
    two: &[u8],
    entry: &mut [u8],
) -> Result<(), Fault>
    ensures { MatchResult result
        (λ _. MatchResult (call_outcome h q position shift.now one.now two.now entry.old) (λ e. entry.new ≡ e ∷ []) (λ _. ⊥))
        (λ e. (call_outcome h q position shift.now one.now two.now entry.old ≡ Err e) × (entry.new ≡ entry.old)) }
{
    let family = check_recovery(h, q, position, shift, one, two, entry)?;
    entry[0] = read_sheets(&family, position as usize, shift[0], one, two)?;
    Ok(())
}

// The entry that two sheets come to, for words of h letters from an alphabet of q.
#[unsafe(no_mangle)]
pub extern "C" fn visordate_recover(
    h: u32,
    q: u32,
    position: u32,
    shift: &[u8],
    first: &[u8],
    second: &[u8],
    entry: &mut [u8],
) -> u32
    ensures cases { MatchResult (call_outcome h q position shift.now first.now second.now entry.old)
        (λ e. (result ≡ 0) × (entry.new ≡ e ∷ []))
        (λ e. (result ≡ number_of e.cause) × (entry.new ≡ entry.old)) }
    ensures read { let f = word_vectors h q in
        (s : Session) → s.count ≡ f.count → s.dim ≡ f.dim → result ≡ 0 →
        Step (waiting s position (at shift.now 0)) (recover f first.now second.now)
        (recovered (Ok (at entry.new 0))) (ready (after_reading s)) }
    ensures at_odds { let f = word_vectors h q in
        (s : Session) → s.count ≡ f.count → s.dim ≡ f.dim → result ≡ 8 →
        Step (waiting s position (at shift.now 0)) (recover f first.now second.now)
        (recovered (Err (at_odds_fault position))) (ready (after_loss s)) }
{
    status(write_entry(h, q, position, shift, first, second, entry))
}
