//! Images: ELF32 executables for RISC-V, as the simulator takes and writes them.
//!
//! It stands on `el_base`, reads numbers with `byteorder`, and keeps program headers in an `arrayvec`.
//! [`load`] judges a file by the grammar `fault`, the first of sixteen faults with its place in the
//! file, and gives the one [`Image`] that `program_of` fixes where there is none. Both definitions
//! stand in `specs/`, over the whole file and with sums that do not wrap; the code reads the headers
//! once, field by field. No memory is taken before every fault is judged, nothing is read outside the
//! file, and [`Image::code_word`] takes none at all. A fault is a number and a place; [`FaultKind`] has
//! the numbers and names.
//!
//! [`write_image`] goes the other way: from words and data, which are [`Built`], to a file without a
//! fault, of which every number of harts loads what was built.
//!
//! What the ELF specification and the RISC-V psABI leave to the system is this project's profile:
//! the faults' numbers, names, places and order, the stacks behind the last segment, and memory in
//! lines of 64 bytes. Sections, symbols, physical addresses and alignments are passed over.
#![tactic(auto)]

mod built;
mod bytes;
mod code;
mod code_segment;
mod fault;
mod header;
mod image;
mod layout;
mod limits;
mod loaded;
mod loader;
mod program_header;
mod table;
mod writer;

pub use built::Built;
pub use code::Code;
pub use code_segment::CodeSegment;
pub use fault::FaultKind;
pub use image::Image;
pub use limits::{
    BUILT_END_LIMIT, BUILT_LIMIT, IMAGE_FILE_LIMIT, MEMORY_END_LIMIT, MEMORY_LIMIT, PAGE_BYTES,
    PROGRAM_HEADER_LIMIT, STACK_BYTES,
};
pub use loader::{ImageFault, load};
pub use writer::write_image;
