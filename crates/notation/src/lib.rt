// Notation: how the test benches read and print numbers, rows and refusals.

#![tactic(auto)]

pub mod answer;
pub mod bytes;
pub mod numbers;
pub mod refusal_line;
pub mod unanswered;

pub use answer::answer_of;
pub use bytes::bytes_of;
pub use numbers::{Bounded, number};
pub use refusal_line::RefusalLine;
pub use unanswered::Unanswered;
