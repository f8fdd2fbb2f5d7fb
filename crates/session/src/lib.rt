// Sessions: a tape's lookups, one after the other, each requested and then recovered or abandoned.

#![tactic(auto)]

pub mod queries;
pub mod recovering;
pub mod states;

pub use queries::write_queries;
pub use recovering::read_sheets;
pub use states::{Counters, Ready, Refused, Waiting};
