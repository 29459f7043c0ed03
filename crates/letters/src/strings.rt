// A pattern and a text: strings of letters, each with the limit of its length, and whether the entry mark may stand in it.
#[derive(Clone, Copy, Debug, PartialEq, Eq)]
pub struct Pattern {
    pub len: usize,
}

impl Pattern {
    // The longest pattern.
    pub const MAX_M: usize = 64;

    // No mark may stand in it: a name does not end within itself.
    pub const MARKS: bool = false;
}

#[derive(Clone, Copy, Debug, PartialEq, Eq)]
pub struct Text {
    pub len: usize,
}

impl Text {
    // The longest text.
    pub const MAX_N: usize = 65536;

    // Marks may stand in it, between its entries.
    pub const MARKS: bool = true;
}
