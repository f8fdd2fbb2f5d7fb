// The whole working of one lookup: what the program `key` prints, and how each number of it comes about.

#![tactic(auto)]

pub mod answering;
pub mod blocks;
pub mod reckoning;
pub mod text;
pub mod work;

pub use answering::{bytes_enough, key};
pub use reckoning::Reckoning;
pub use work::{Work, work_out};
