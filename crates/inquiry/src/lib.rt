// Inquiries: what the program `lookup` reads, and what it answers.

#![tactic(auto)]

pub mod answering;
pub mod finding;
pub mod found;
pub mod inquiry;
mod lines;
mod numbers;
pub mod stop;
pub mod telling;
pub mod text;

pub use answering::{FORM, bytes_enough, reply, reply_with};
pub use found::Found;
pub use inquiry::Inquiry;
pub use stop::Stop;
pub use telling::Tells;
pub use text::Refusal;
