// Books: families that are read from bytes.

#![tactic(auto)]

pub mod book;
mod book_rows;
mod pairs;
mod reader;
pub mod report;

pub use book::Book;
pub use report::{Report, examine};
