//! Which symbol of an ELF file an address belongs to.
//!
//! It stands on `byteorder`. [`read_symbols`] takes any string of bytes: of an ELF32 file, little endian, it keeps the
//! named code and data symbols of `.symtab`; a file without such a table has none, and of a broken table it says so.
//! [`Symbols::nearest`] gives the symbol at or below an address. The list and the names take memory as they are read.
//!
//! Rules are of the ELF specification, chapters 'ELF Header', 'Sections', 'String Table' and 'Symbol Table', where a doc
//! comment names no other source.
#![tactic(auto)]

mod entries;
mod fields;
mod location;
mod sections;
mod table;

pub use entries::Symbol;
pub use table::{Symbols, SymbolsFault, read_symbols};
