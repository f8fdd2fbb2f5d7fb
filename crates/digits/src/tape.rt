// Tapes: the digits that a client draws at random. (The usual word is the client's randomness.)
ghost use Rattle.std.specs.Prelude.{◌≡◌, length, Some, None, MatchResult};
ghost use Rattle.digits.specs.Refusals.{long_fault};
ghost use Rattle.digits.specs.Tapes.{drawn};

use crate::rows::{check_length, reduce};
use faults::Fault;

// Draws a tape from random bytes, each of which gives its remainder by 6. Rows of unequal length are refused, naming the
// bytes' length, and the tape stays as it was.
pub fn draw(bytes: &[u8], tape: &mut [u8]) -> Result<(), Fault>
    ensures { MatchResult result
        (λ _. (long_fault (length tape.old) bytes.now ≡ None) × (tape.new ≡ drawn bytes.now))
        (λ f. (long_fault (length tape.old) bytes.now ≡ Some f) × (tape.new ≡ tape.old)) }
{
    check_length(bytes, tape.len())?;
    tape.copy_from_slice(bytes);
    reduce(tape);
    Ok(())
}
