// What a bench answers to a line.
ghost use Rattle.std.specs.Prelude.{◌≡◌, Some, IfOk, Ok, string_bytes};
ghost use Rattle.notation.specs.Answers.{line_answer};

use crate::refusal_line::RefusalLine;
use crate::unanswered::Unanswered;
use std::alloc::{AllocError, Global};

// The answer to a line: what was found, or why there is nothing to tell of it.
pub fn answer_of(heap: Global, came: Result<String, Unanswered>) -> Result<String, AllocError>
    ensures says { IfOk result (λ text. Some (string_bytes text) ≡ line_answer came) }
    ensures found { IfOk came (λ text. result ≡ Ok text) }
{
    came.or_else(|reason| match reason {
        Unanswered::Memory(error) => Err(error),
        Unanswered::Refused(fault) => RefusalLine(fault).to_string(heap),
        Unanswered::Unclear(why) => String::from_str(heap, why),
    })
}
