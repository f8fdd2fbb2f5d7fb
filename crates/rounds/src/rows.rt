// What a round is lent, and what it gives.

// The rows of a round: each host's query, and the sheet that it answers into.
#[derive(Drop)]
pub struct Rows<'a> {
    pub first_query: &'a mut [u8],
    pub second_query: &'a mut [u8],
    pub first_sheet: &'a mut [u8],
    pub second_sheet: &'a mut [u8],
}

// The entry that a round read, and how many digits went to the hosts and back.
#[derive(Clone, Copy, PartialEq, Eq)]
pub struct Reading {
    pub entry: u8,
    pub carried: usize,
}
