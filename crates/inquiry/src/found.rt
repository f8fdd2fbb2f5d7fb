// What a lookup finds.

use rounds::Reading;

// The position, the queries that the two hosts were shown, the sheets that they answered, and what the round read from them.
#[derive(Drop)]
pub struct Found {
    pub position: usize,
    pub first: Vec<u8>,
    pub second: Vec<u8>,
    pub first_sheet: Vec<u8>,
    pub second_sheet: Vec<u8>,
    pub reading: Reading,
}
