ghost use Rattle.std.specs.Prelude.{◌≡◌, IfOk};
ghost use Rattle.elf_image.specs.Program.{IsProgram, code_word, program_from};

use crate::code::Code;
use el_base::NoMemory;
use std::alloc::Global;
use std::marker::Model;

/// A program in memory before its first step.
#[derive(Debug, Drop)]
pub struct Image {
    base: u32,
    bytes: Vec<u8>,
    entry: u32,
    harts: u8,
    code: Code,
}

impl Model for Image {
    ghost use Rattle.elf_image.specs.Program.{Program, IsProgram, program_from};

    ghost Value = { Program };

    ghost view = { λ a. program_from a.base a.bytes.items a.entry a.harts a.code };

    ghost invariant = { λ a. IsProgram (program_from a.base a.bytes.items a.entry a.harts a.code) };
}

impl Image {
    /// The program of these parts.
    pub(crate) fn new(base: u32, bytes: Vec<u8>, entry: u32, harts: u8, code: Code) -> Image
        requires { IsProgram (program_from base bytes.items entry harts code) }
        ensures { result ≡ program_from base bytes.items entry harts code }
    {
        Image {
            base,
            bytes,
            entry,
            harts,
            code,
        }
    }

    /// An equal image, with a memory of its own. The code is shared.
    pub fn copy(&self, alloc: Global) -> Result<Image, NoMemory>
        ensures { IfOk result (λ copy. copy ≡ self.now) }
    {
        let mut bytes = Vec::with_capacity(alloc, self.bytes.len())?;
        bytes.extend_from_slice(self.bytes.as_slice())?;
        Ok(Image {
            bytes,
            code: self.code.share()?,
            ..*self
        })
    }

    /// The address of the first byte of memory, a multiple of 64.
    pub fn base(&self) -> u32
        ensures exact { result ≡ self.now.base }
        ensures valid { IsProgram self.now }
    {
        self.base
    }

    /// Memory before the first step, from the base on.
    pub fn bytes(&self) -> &[u8]
        ensures exact { result.now ≡ self.now.bytes }
        ensures valid { IsProgram self.now }
    {
        self.bytes.as_slice()
    }

    /// The address of the first instruction of each hart, a multiple of 4.
    pub fn entry(&self) -> u32
        ensures exact { result ≡ self.now.entry }
        ensures valid { IsProgram self.now }
    {
        self.entry
    }

    /// The number of harts, from 1 to 8.
    pub fn harts(&self) -> u8
        ensures exact { result ≡ self.now.harts }
        ensures valid { IsProgram self.now }
    {
        self.harts
    }

    /// What instructions are fetched from.
    pub fn code(&self) -> &Code
        ensures exact { result.now ≡ self.now.code }
        ensures valid { IsProgram self.now }
    {
        &self.code
    }

    /// The word at `pc`, or none where its four bytes do not all lie in one executable segment. It
    /// takes no memory.
    pub fn code_word(&self, pc: u32) -> Option<u32>
        ensures { result ≡ code_word self.now.code pc }
    {
        self.code.code_word(pc)
    }
}
