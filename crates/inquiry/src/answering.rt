// The reply to an input: what a program prints.
ghost use Rattle.std.specs.Prelude.{◌≡◌, ℕ, ◌+◌, List, take, Some, IfOk, IfSome, MatchResult, string_bytes};
ghost use Rattle.inquiry.specs.Grammar.{most_bytes, inquiry_of};
ghost use Rattle.inquiry.specs.Replies.{reply, reply_by};
ghost use Rattle.inquiry.specs.Stops.{stop_text};

use crate::found::Found;
use crate::inquiry::{Inquiry, MOST_BYTES};
use crate::stop::Stop;
use crate::telling::Tells;
use crate::text::Refusal;
use std::alloc::{AllocError, Global};

// The number by which an input of another form is refused. No fault stands for it, since no call refused.
pub const FORM: u32 = 1;

// Finds what is asked of the inquiry that an input holds.
fn ask<T: Tells>(heap: Global, input: &[u8]) -> Result<T, Stop>
    ensures { let text = reply_by T.tells (inquiry_of input.now) in
        MatchResult result (λ found. T.output found ≡ Some text) (λ stop. IfSome (stop_text stop) (λ t. t ≡ text)) }
{
    let inquiry = Inquiry::read(heap, input)?;
    T::find(inquiry, heap)
}

// What a program prints for an input: what it finds, or by which number the input was refused.
pub fn reply_with<T: Tells>(heap: Global, input: &[u8]) -> Result<String, AllocError>
    ensures { IfOk result (λ text. string_bytes text ≡ reply_by T.tells (inquiry_of input.now)) }
{
    match ask::<T>(heap, input) {
        Ok(found) => format!(in heap; "{found}"),
        Err(Stop::Form) => format!(in heap; "{}", Refusal(FORM)),
        Err(Stop::Refused(fault)) => format!(in heap; "{}", Refusal(fault.cause.number())),
        Err(Stop::Memory(error)) => Err(error),
    }
}

// What the program `lookup` prints for an input.
#[tactic(auto, unfolding(crate::specs::Replies::reply))]
pub fn reply(heap: Global, input: &[u8]) -> Result<String, AllocError>
    ensures { IfOk result (λ text. string_bytes text ≡ reply input.now) }
{
    reply_with::<Found>(heap, input)
}

// How many bytes of an input are enough to know what it says, and so to reply to it: one more than an inquiry may have, since any
// longer input is refused.
pub fn bytes_enough() -> u64
    ensures count { result ≡ most_bytes + 1 }
    ensures says { (input : List ℕ) → inquiry_of (take result input) ≡ inquiry_of input }
    ensures replied { (input : List ℕ) → reply (take result input) ≡ reply input }
{
    MOST_BYTES as u64 + 1
}
