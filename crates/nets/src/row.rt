/// One transition of a table: its label, its weights and the places that inhibit it.
// Three arrays by the place, and no array of places: each role is read alone, as a bag of weights or as a set.
#[derive(Clone, Copy, Debug, PartialEq, Eq)]
pub struct Row {
    pub label: u64,
    pub inputs: [u8; 16],
    pub outputs: [u8; 16],
    pub inhibitors: [bool; 16],
}
