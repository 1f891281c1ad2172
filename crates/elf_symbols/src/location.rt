//! Where the symbol table lies.

ghost use Rattle.std.specs.Prelude.{◌≡◌, Some};
ghost use Rattle.elf_symbols.specs.Sections as sections;

use crate::sections::{Header, SECTION_HEADER_LEN, Section, header_of, is_elf32, section_at};

const SHT_SYMTAB: u32 = 2;

const SHT_STRTAB: u32 = 3;

/// The bytes of a symbol of class ELFCLASS32.
pub(crate) const SYMBOL_LEN: usize = 16;

/// The most entries that are read.
pub(crate) const SYMBOL_LIMIT: u32 = 65_536;

/// Where the entries of a symbol table and their names stand in the file.
#[derive(Clone, Copy, Debug, PartialEq, Eq)]
pub(crate) struct Place {
    pub(crate) entries: u32,
    pub(crate) count: u32,
    pub(crate) names: u32,
    pub(crate) names_len: u32,
}

/// Whether a file has a symbol table, and where.
#[derive(Clone, Copy, Debug, PartialEq, Eq)]
pub(crate) enum Location {
    /// It has none.
    Nothing,
    /// It is no ELF32 file, little endian, or its sections, its table or the names are not whole.
    Broken,
    At(Place),
}

/// Where the first symbol table of a file lies.
#[tactic(auto, unfolding(crate::specs::Sections::located))]
pub(crate) fn locate(file: &[u8]) -> Location
    ensures { result ≡ sections.located file.now }
{
    if !is_elf32(file) {
        return Location::Broken;
    }
    let header = header_of(file);
    if header.e_shnum == 0 {
        return Location::Nothing;
    }
    let end = header.e_shoff as usize + SECTION_HEADER_LEN * header.e_shnum as usize;
    if header.e_shentsize != 40 || file.len() < end {
        return Location::Broken;
    }
    match first_symtab(file, header) {
        None => Location::Nothing,
        Some(index) => locate_at(file, header, index),
    }
}

/// The number of the first symbol table among the sections.
fn first_symtab(file: &[u8], header: Header) -> Option<u32>
    ensures { result ≡ sections.first_symtab file.now header }
{
    (0..u32::from(header.e_shnum)).find(|index| section_at(file, header.e_shoff, *index).sh_type
        == SHT_SYMTAB)
}

/// Where the symbol table lies whose section has this number.
fn locate_at(file: &[u8], header: Header, index: u32) -> Location
    ensures { result ≡ sections.located_by file.now header (Some index) }
{
    let symtab = section_at(file, header.e_shoff, index);
    let strtab = section_at(file, header.e_shoff, symtab.sh_link);
    if is_whole(file.len(), header, symtab, strtab) {
        Location::At(place_of(symtab, strtab))
    } else {
        Location::Broken
    }
}

/// Whether a symbol table and the strings that it links to are whole, in a file of so many bytes.
fn is_whole(file_len: usize, header: Header, symtab: Section, strtab: Section) -> bool
    ensures { result ≡ sections.is_whole file_len header symtab strtab }
{
    symtab.sh_entsize == SYMBOL_LEN as u32
        && symtab.sh_link < u32::from(header.e_shnum)
        && is_inside(file_len, symtab)
        && strtab.sh_type == SHT_STRTAB
        && is_inside(file_len, strtab)
}

fn is_inside(file_len: usize, section: Section) -> bool
    ensures { result ≡ sections.is_inside file_len section }
{
    section.sh_offset as usize + section.sh_size as usize <= file_len
}

fn place_of(symtab: Section, strtab: Section) -> Place
    ensures { result ≡ sections.place_of symtab strtab }
{
    Place {
        entries: symtab.sh_offset,
        count: (symtab.sh_size / SYMBOL_LEN as u32).min(SYMBOL_LIMIT),
        names: strtab.sh_offset,
        names_len: strtab.sh_size,
    }
}
