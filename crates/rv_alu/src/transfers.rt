//! What an instruction moves between its hart, memory and the output: each is a piece of memory in one
//! line, and at most a word but for a piece of output.

/// The bytes of memory that an instruction loads, as a little-endian number.
#[derive(Clone, Copy, Debug, PartialEq, Eq)]
pub struct Load {
    pub address: u32,
    /// 1, 2 or 4.
    pub len: u32,
}

/// The bytes that an instruction puts into memory: the low bytes of a value, the lowest first.
#[derive(Clone, Copy, Debug, PartialEq, Eq)]
pub struct Store {
    pub address: u32,
    /// 1, 2 or 4.
    pub len: u32,
    pub value: u32,
}

/// The bytes of memory that a write call appends to the output.
#[derive(Clone, Copy, Debug, PartialEq, Eq)]
pub struct Append {
    pub address: u32,
    /// 1 to 64.
    pub len: u32,
}

/// What an instruction does beside changing its hart's view.
#[derive(Clone, Copy, Debug, PartialEq, Eq)]
pub struct Transfers {
    pub store: Option<Store>,
    pub append: Option<Append>,
}
