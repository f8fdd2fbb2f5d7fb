// Hosts: the interface that every kind is used by, and the kinds.

#![tactic(auto)]

mod answering;
pub mod change;
pub mod change_host;
pub mod dense;
pub mod host;
pub mod lent;
pub mod sum;

pub use change::Change;
pub use change_host::ChangeHost;
pub use dense::Dense;
pub use host::{Host, MOST_ENTRIES};
pub use sum::Sum;
