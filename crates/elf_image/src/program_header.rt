//! The program headers, of the ELF specification's chapter 'Program Header'. Those of type PT_LOAD tell
//! of the segments.

ghost use Rattle.std.specs.Prelude.{◌≡◌, ◌≤◌, ◌+◌, ◌++◌, ◌<◌, ◌^◌, None, Some, IfErr, OnOk, length};
ghost use Rattle.elf_image.specs.Header.{program_header, program_header_bytes};
ghost use Rattle.elf_image.specs.Layout as layout;
ghost use Rattle.elf_image.specs.Limits.{file_limit};
ghost use Rattle.elf_image.specs.Faults.{load_fault};

use crate::bytes::{push_words, word_at};
use crate::fault::FaultKind;
use el_base::{FileFault, FormatFault, NoMemory};

/// The bytes of a program header.
pub const PROGRAM_HEADER_LEN: usize = 32;

pub const PT_LOAD: u32 = 1;

const PT_DYNAMIC: u32 = 2;

const PT_INTERP: u32 = 3;

pub const PF_X: u32 = 1;

pub const PF_W: u32 = 2;

pub const PF_R: u32 = 4;

/// The alignment of a segment that is written: place and address of each are multiples of it.
const ALIGNMENT: u32 = 4;

// The places of the fields in a program header.
const P_TYPE: u32 = 0;

const P_OFFSET: u32 = 4;

const P_VADDR: u32 = 8;

const P_FILESZ: u32 = 16;

const P_MEMSZ: u32 = 20;

const P_FLAGS: u32 = 24;

/// The fields of a program header that are read, and the place of the header in the file.
#[derive(Clone, Copy, Debug, Default)]
pub struct ProgramHeader {
    pub place: u32,
    pub p_type: u32,
    pub p_offset: u32,
    pub p_vaddr: u32,
    pub p_filesz: u32,
    pub p_memsz: u32,
    pub p_flags: u32,
}

impl ProgramHeader {
    /// The program header at a place of a file.
    #[tactic(auto, unfolding(crate::specs::Header::program_header))]
    pub fn read(file: &[u8], place: u32) -> ProgramHeader
        requires { place + 32 ≤ length file.now }
        ensures { result ≡ program_header file.now place }
    {
        let at = place as usize;
        ProgramHeader {
            place,
            p_type: word_at(file, at + P_TYPE as usize),
            p_offset: word_at(file, at + P_OFFSET as usize),
            p_vaddr: word_at(file, at + P_VADDR as usize),
            p_filesz: word_at(file, at + P_FILESZ as usize),
            p_memsz: word_at(file, at + P_MEMSZ as usize),
            p_flags: word_at(file, at + P_FLAGS as usize),
        }
    }

    /// Appends the header to a file. Its segment is aligned to 4 bytes.
    #[tactic(auto, unfolding(crate::specs::Header::program_header_bytes))]
    pub fn write(&self, file: &mut Vec<u8>) -> Result<(), NoMemory>
        ensures { OnOk result (file.new.items ≡ file.old.items ++ program_header_bytes self.now) }
    {
        push_words(
            file,
            &[
                self.p_type,
                self.p_offset,
                self.p_vaddr,
                self.p_vaddr,
                self.p_filesz,
                self.p_memsz,
                self.p_flags,
                ALIGNMENT,
            ],
        )
    }

    /// Judges a header of type PT_LOAD: it has no more bytes in the file than in memory, and these lie
    /// in a file of `file_len` bytes.
    pub fn check(&self, file_len: usize) -> Result<(), FileFault>
        requires { self.now.place ≤ file_limit }
        ensures accepted { OnOk result (load_fault file_len self.now ≡ None) }
        ensures refused { IfErr result (λ fault. load_fault file_len self.now ≡ Some fault) }
    {
        if self.p_type != PT_LOAD {
            return Ok(());
        }
        if self.p_filesz > self.p_memsz {
            return Err(FaultKind::Segment.at(self.place + P_FILESZ));
        }
        if self.p_filesz >= 1 && self.p_offset as usize + self.p_filesz as usize > file_len {
            return Err(FaultKind::Segment.at(self.place + P_OFFSET));
        }
        Ok(())
    }

    /// Whether the header asks for a dynamic linker.
    pub fn is_dynamic(&self) -> bool
        ensures { result ≡ layout.is_dynamic self.now }
    {
        self.p_type == PT_DYNAMIC || self.p_type == PT_INTERP
    }

    /// Whether the header is that of a loaded segment, which has at least one byte of memory.
    pub fn is_segment(&self) -> bool
        ensures { result ≡ layout.is_segment self.now }
    {
        self.p_type == PT_LOAD && self.p_memsz >= 1
    }

    /// Whether the segment's bytes are instructions.
    pub fn is_executable(&self) -> bool
        ensures { result ≡ layout.is_executable self.now }
    {
        self.p_flags & PF_X != 0
    }

    /// The address behind the segment's last byte of memory.
    pub fn end(&self) -> u64
        ensures exact { result ≡ layout.segment_end self.now }
        ensures bound { result < 2 ^ 33 }
    {
        self.p_vaddr as u64 + self.p_memsz as u64
    }

    /// Whether two segments have a byte of memory in common.
    pub fn shares_byte(&self, other: &ProgramHeader) -> bool
        ensures { result ≡ layout.shares_byte self.now other.now }
    {
        (self.p_vaddr as u64) < other.end() && (other.p_vaddr as u64) < self.end()
    }

    /// Whether the four bytes at an address all lie in the segment.
    pub fn has_word(&self, address: u32) -> bool
        ensures { result ≡ layout.has_word address self.now }
    {
        self.p_vaddr <= address && address as u64 + 4 <= self.end()
    }

    /// Whether the segment is executable and has the four bytes at an address.
    pub fn has_instruction(&self, address: u32) -> bool
        ensures { result ≡ layout.has_instruction address self.now }
    {
        self.is_executable() && self.has_word(address)
    }
}
