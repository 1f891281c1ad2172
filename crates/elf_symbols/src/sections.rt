//! The ELF header and the table of section headers, with the field names of the ELF specification.

ghost use Rattle.std.specs.Prelude.{◌≡◌};
ghost use Rattle.elf_symbols.specs.Sections as sections;

use crate::fields::{byte_at, half_at, word_at};

/// The bytes of a section header of class ELFCLASS32.
pub(crate) const SECTION_HEADER_LEN: usize = 40;

/// The bytes of the ELF header of class ELFCLASS32.
pub(crate) const FILE_HEADER_LEN: usize = 52;

/// EI_MAG0 to EI_MAG3 as one number.
const ELF_MAGIC: u32 = 0x464c_457f;

const ELFCLASS32: u8 = 1;

const ELFDATA2LSB: u8 = 1;

/// The fields of the ELF header that lead to the sections.
#[derive(Clone, Copy, Debug, PartialEq, Eq)]
pub(crate) struct Header {
    pub(crate) e_shoff: u32,
    pub(crate) e_shentsize: u16,
    pub(crate) e_shnum: u16,
}

/// The fields of a section header that a symbol table is judged by.
#[derive(Clone, Copy, Debug, PartialEq, Eq)]
pub(crate) struct Section {
    pub(crate) sh_type: u32,
    pub(crate) sh_offset: u32,
    pub(crate) sh_size: u32,
    pub(crate) sh_link: u32,
    pub(crate) sh_entsize: u32,
}

/// Whether the file begins with the header of an ELF file of 32 bits, little endian.
pub(crate) fn is_elf32(file: &[u8]) -> bool
    ensures { result ≡ sections.is_elf32 file.now }
{
    file.len() >= FILE_HEADER_LEN
        && word_at(file, 0) == ELF_MAGIC
        && byte_at(file, 4) == ELFCLASS32
        && byte_at(file, 5) == ELFDATA2LSB
}

pub(crate) fn header_of(file: &[u8]) -> Header
    ensures { result ≡ sections.header_of file.now }
{
    Header {
        e_shoff: word_at(file, 32),
        e_shentsize: half_at(file, 46),
        e_shnum: half_at(file, 48),
    }
}

/// The section header of this number in the table.
#[tactic(auto, unfolding(crate::specs::Sections::section_at))]
pub(crate) fn section_at(file: &[u8], e_shoff: u32, index: u32) -> Section
    ensures { result ≡ sections.section_at file.now e_shoff index }
{
    let place = e_shoff as usize + SECTION_HEADER_LEN * index as usize;
    Section {
        sh_type: word_at(file, place + 4),
        sh_offset: word_at(file, place + 16),
        sh_size: word_at(file, place + 20),
        sh_link: word_at(file, place + 24),
        sh_entsize: word_at(file, place + 36),
    }
}
