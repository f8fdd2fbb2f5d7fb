// The scheme: queries, answers, recovery, sessions and runs as definitions, the law of all runs, and recovery's arithmetic.

#![tactic(auto)]

pub mod laws;
pub mod recovery;
pub mod sheet;
pub mod weighing;

pub use laws::{as_published, hosts_of_tables, law_of_runs, one_step, run_counters};
pub use recovery::{found, read_entry, sheets_weighed, slope, value};
pub use sheet::sheet_size;
pub use weighing::weighed;
