//! What gives addresses their names, and the instructions there.

use elf_image::Image;
use elf_symbols::Symbols;

/// An image with its symbols.
#[derive(Clone, Copy)]
pub struct Names<'a> {
    pub symbols: &'a Symbols,
    pub image: &'a Image,
}
