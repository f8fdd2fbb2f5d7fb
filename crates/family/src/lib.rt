// Matching families: the interface that every kind is used by, the unit family, and the first part of any family.

#![tactic(auto)]

pub mod family;
pub mod first;
pub mod unit;

pub use family::Family;
pub use first::FirstPart;
pub use unit::UnitFamily;
