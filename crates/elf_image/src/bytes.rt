//! Little-endian numbers: at a place of a slice, and put behind bytes.

ghost use Rattle.std.specs.Prelude.{◌≡◌, ◌+◌, ◌++◌, ◌≤◌, OnOk, length};
ghost use Rattle.elf_image.specs.Numbers as numbers;

use byteorder::{ByteOrder, LittleEndian};
use el_base::NoMemory;

/// The two bytes at `place`, as a number.
pub fn half_at(bytes: &[u8], place: usize) -> u16
    requires { place + 2 ≤ length bytes.now }
    ensures { result ≡ numbers.half_at bytes.now place }
{
    LittleEndian::read_u16(&bytes[place..])
}

/// The four bytes at `place`, as a number.
pub fn word_at(bytes: &[u8], place: usize) -> u32
    requires { place + 4 ≤ length bytes.now }
    ensures { result ≡ numbers.word_at bytes.now place }
{
    LittleEndian::read_u32(&bytes[place..])
}

/// Appends numbers of two bytes each.
pub fn push_halves(bytes: &mut Vec<u8>, halves: &[u16]) -> Result<(), NoMemory>
    ensures { OnOk result (bytes.new.items ≡ bytes.old.items ++ numbers.half_bytes halves.now) }
{
    for half in halves {
        bytes.extend_from_slice(&half.to_le_bytes())?;
    }
    Ok(())
}

/// Appends numbers of four bytes each.
pub fn push_words(bytes: &mut Vec<u8>, words: &[u32]) -> Result<(), NoMemory>
    ensures pushed { OnOk result (bytes.new.items ≡ bytes.old.items ++ numbers.word_bytes words.now) }
    ensures read_back { OnOk result (numbers.ReadBack words.now) }
{
    for word in words {
        bytes.extend_from_slice(&word.to_le_bytes())?;
    }
    Ok(())
}
