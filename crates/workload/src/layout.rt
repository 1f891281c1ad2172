//! Where the words and the data of a workload lie. The data is one line of what a run begins with, and then a line
//! of its own for each of the others.

/// The address of the first word.
pub const BASE: u32 = 0x1_0000;

/// The address of the data, on the page behind that of the words.
pub const DATA_START: u32 = 0x1_1000;

/// Where the number that a workload is made with stands in the data.
pub const NUMBER: i32 = 0;

/// Where the sixteen digits stand.
pub const DIGITS: i32 = 16;

/// Where the harts that are done are counted.
pub const DONE: i32 = 64;

/// Where the text is put together.
pub const TEXT: i32 = 128;

/// Where the first of sixteen locks stands, and each other one a line behind the one before.
pub const LOCKS: i32 = 192;

/// Where the first of 64 words stands, and each other one a line behind the one before.
pub const WORDS: i32 = 1_216;

/// The bytes of the data.
pub const DATA_LEN: u32 = 5_312;
