// The word family: words of equal length over an alphabet, told by the letters at each place and at each two places.

#![tactic(auto)]

pub mod distance;
pub mod words;

pub use distance::distance_law;
pub use words::Words;
