// Rounds: a whole lookup, from the position to the entry.

#![tactic(auto)]

pub mod checking;
pub mod playing;
pub mod rows;

pub use checking::check_round;
pub use playing::round;
pub use rows::{Reading, Rows};
