//! The limits of an image. They are this project's profile.

/// The most bytes of an image file.
pub const IMAGE_FILE_LIMIT: u32 = 33_554_432;

/// The most program headers of an image file.
pub const PROGRAM_HEADER_LIMIT: usize = 64;

/// The bytes of each hart's stack, at the end of memory.
pub const STACK_BYTES: u32 = 65_536;

/// The most bytes of memory, stacks among them.
pub const MEMORY_LIMIT: u32 = 16_777_216;

/// The greatest address at which memory may end.
pub const MEMORY_END_LIMIT: u32 = 0xffff_0000;

/// The bytes of a page, on which the segments of a written image begin.
pub const PAGE_BYTES: u32 = 4_096;

/// The most bytes of the segments of a written image together.
pub const BUILT_LIMIT: u32 = 8_388_608;

/// The last segment of a written image ends below this address.
pub const BUILT_END_LIMIT: u32 = 0xf000_0000;
