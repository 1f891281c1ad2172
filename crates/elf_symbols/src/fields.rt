//! Little-endian fields of a file. What is outside the file is read as zero.

ghost use Rattle.std.specs.Prelude.{◌≡◌, drop};
ghost use Rattle.elf_symbols.specs.Fields as fields;

use byteorder::{ByteOrder, LittleEndian};

/// The bytes from a place on.
pub(crate) fn tail(file: &[u8], place: usize) -> &[u8]
    ensures { result.now ≡ drop place file.now }
{
    if place <= file.len() {
        &file[place..]
    } else {
        &[]
    }
}

pub(crate) fn byte_at(file: &[u8], place: usize) -> u8
    ensures { result ≡ fields.byte_at file.now place }
{
    match tail(file, place) {
        [] => 0,
        [byte, ..] => *byte,
    }
}

pub(crate) fn half_at(file: &[u8], place: usize) -> u16
    ensures { result ≡ fields.half_at file.now place }
{
    let rest = tail(file, place);
    if rest.len() < 2 {
        0
    } else {
        LittleEndian::read_u16(rest)
    }
}

pub(crate) fn word_at(file: &[u8], place: usize) -> u32
    ensures { result ≡ fields.word_at file.now place }
{
    let rest = tail(file, place);
    if rest.len() < 4 {
        0
    } else {
        LittleEndian::read_u32(rest)
    }
}
