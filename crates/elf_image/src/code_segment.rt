ghost use Rattle.std.specs.Prelude.{◌≡◌, ◌+◌, IsTrue};
ghost use Rattle.elf_image.specs.Program.{has_word, segment_word};

use crate::bytes::word_at;
use std::marker::Model;

/// An executable segment as loaded: its first address and its bytes.
#[derive(Debug, Drop)]
pub struct CodeSegment {
    start: u32,
    bytes: Vec<u8>,
}

impl Model for CodeSegment {
    ghost use Rattle.elf_image.specs.Program.{CodeSegment};

    ghost Value = { CodeSegment };

    ghost view = { λ a. record { start = a.start; bytes = a.bytes.items } };
}

impl CodeSegment {
    /// A segment of these bytes, the first of them at the address `start`.
    pub(crate) fn new(start: u32, bytes: Vec<u8>) -> CodeSegment
        ensures { result ≡ record { start = start; bytes = bytes.items } }
    {
        CodeSegment { start, bytes }
    }

    /// The address of the first byte.
    pub fn start(&self) -> u32
        ensures { result ≡ self.now.start }
    {
        self.start
    }

    /// The bytes as loaded.
    pub fn bytes(&self) -> &[u8]
        ensures { result.now ≡ self.now.bytes }
    {
        self.bytes.as_slice()
    }

    /// Whether the four bytes at `pc` all lie in this segment.
    pub(crate) fn has_word(&self, pc: u32) -> bool
        ensures { result ≡ has_word pc self.now }
    {
        self.start <= pc && (pc - self.start) as usize + 4 <= self.bytes.len()
    }

    /// The little-endian word at `pc`.
    pub(crate) fn word(&self, pc: u32) -> u32
        requires { IsTrue (has_word pc self.now) }
        ensures { result ≡ segment_word pc self.now }
    {
        word_at(&self.bytes, (pc - self.start) as usize)
    }
}
