// The key to an input: what the program prints.
ghost use Rattle.std.specs.Prelude.{◌≡◌, ℕ, ◌+◌, List, take, IfOk, string_bytes};
ghost use Rattle.inquiry.specs.Grammar.{most_bytes};
ghost use Rattle.working.specs.Keys.{key, worked_text};

use crate::work::{Work, work_out};
use inquiry::{Inquiry, Stop, Tells, reply_with};
use std::alloc::{AllocError, Global};

// What a lookup finds, with its whole working.
impl Tells for Work {
    ghost tells = { worked_text };

    fn find(inquiry: Inquiry, heap: Global) -> Result<Work, Stop> {
        work_out(inquiry, heap)
    }
}

// What the program prints for an input.
#[tactic(auto, unfolding(crate::specs::Keys::key))]
pub fn key(heap: Global, input: &[u8]) -> Result<String, AllocError>
    ensures { IfOk result (λ text. string_bytes text ≡ key input.now) }
{
    reply_with::<Work>(heap, input)
}

// How many bytes of an input are enough to print its key.
#[tactic(auto, unfolding(crate::specs::Keys::key))]
pub fn bytes_enough() -> u64
    ensures count { result ≡ most_bytes + 1 }
    ensures replied { (input : List ℕ) → key (take result input) ≡ key input }
{
    inquiry::bytes_enough()
}
