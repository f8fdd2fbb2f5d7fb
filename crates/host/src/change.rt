// A change: what a change host holds at one position.

// The digit that a table has at a position in place of 0. A change of digit 0 is a change like any other.
#[derive(Clone, Copy, PartialEq, Eq)]
pub struct Change {
    pub position: usize,
    pub digit: u8,
}
