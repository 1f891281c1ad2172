//! The file of a run's program: memory that is all zeros, and code in a segment of its own.

use crate::difference::Difference;
use crate::field::{list, member, word};
use byteorder::{ByteOrder, LittleEndian};
use serde_json::Value;
use std::alloc::{AllocError, Global};

/// Where the code stands in the file: behind the ELF header and two program headers.
const CODE_PLACE: u32 = 52 + 2 * 32;

/// A segment that is readable and writable, and one that is readable and executable.
const DATA: u32 = 6;

const CODE: u32 = 5;

/// The file of a run's program (ELF-32, chapter 1 'Object Files'; header values of the RISC-V psABI).
pub fn file(alloc: Global, run: &Value) -> Result<Vec<u8>, Difference> {
    let memory = member(run, "memory")?;
    let code = member(run, "code")?;
    let words = list(member(code, "words")?)?;
    let start = word(member(code, "start")?)?;
    let mut file = Vec::new(alloc);
    put_all(&mut file, &header(start))?;
    let base = word(member(memory, "base")?)?;
    let length = word(member(memory, "length")?)?;
    put_all(&mut file, &program_header(base, 0, length, DATA))?;
    let size = size_of_words(words.len()).ok_or(Difference::Form)?;
    put_all(&mut file, &program_header(start, size, size, CODE))?;
    for code_word in words {
        put(&mut file, word(code_word)?)?;
    }
    Ok(file)
}

/// How many bytes so many words have, or `None` where 32 bits do not hold it.
fn size_of_words(count: usize) -> Option<u32> {
    u32::try_from(count).ok()?.checked_mul(4)
}

/// An ELF header with two program headers behind it.
fn header(entry: u32) -> [u32; 13] {
    [
        0x464c_457f,
        0x0001_0101,
        0,
        0,
        0x00f3_0002,
        1,
        entry,
        52,
        0,
        0,
        0x0020_0034,
        2,
        0,
    ]
}

/// A program header of a load segment.
fn program_header(address: u32, file_size: u32, memory_size: u32, flags: u32) -> [u32; 8] {
    [
        1,
        CODE_PLACE,
        address,
        address,
        file_size,
        memory_size,
        flags,
        4,
    ]
}

/// Puts words behind a file, little-endian.
fn put_all(file: &mut Vec<u8>, words: &[u32]) -> Result<(), AllocError> {
    for word in words {
        put(file, *word)?;
    }
    Ok(())
}

/// Puts one word behind a file.
fn put(file: &mut Vec<u8>, word: u32) -> Result<(), AllocError> {
    let mut bytes = [0; 4];
    LittleEndian::write_u32(&mut bytes, word);
    file.extend_from_slice(&bytes)
}
