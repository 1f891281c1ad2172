//! Images that are built: words at a base, and data behind them.

ghost use Rattle.std.specs.Prelude.{◌≡◌, ◌++◌, OnOk};

use crate::bytes::push_words;
use crate::header::{EM_RISCV, ET_EXEC, EV_CURRENT, FILE_HEADER_LEN, FileHeader};
use crate::limits::PAGE_BYTES;
use crate::program_header::{PF_R, PF_W, PF_X, PROGRAM_HEADER_LEN, PT_LOAD, ProgramHeader};
use el_base::NoMemory;

/// The program headers: one of the words and one of the data.
const HEADERS: u32 = 2;

/// The place of the words in the file, behind the headers.
const WORDS_PLACE: u32 = FILE_HEADER_LEN as u32 + HEADERS * PROGRAM_HEADER_LEN as u32;

/// What an image is built of: words of instructions, and data behind them, which is bytes and then
/// zeros.
#[derive(Debug, Drop)]
pub struct Built {
    /// The address of the first word, a multiple of 4,096.
    pub base: u32,
    /// The words, which harts fetch. There is at least one.
    pub words: Vec<u32>,
    /// The bytes of the data. They begin at the least multiple of 4,096 that is not below the words' end.
    pub bytes: Vec<u8>,
    /// How many zeros stand behind the bytes.
    pub zeros: u32,
    /// The address of one of the words, at which each hart begins.
    pub entry: u32,
}

impl Built {
    ghost use Rattle.elf_image.specs.Built as built;
    ghost use Rattle.elf_image.specs.Numbers.{ReadBack};

    /// How many bytes the words have.
    fn words_len(&self) -> u32
        requires { built.IsBuildable self.now }
        ensures { result ≡ built.words_len self.now }
    {
        4 * self.words.len() as u32
    }

    /// The address of the data, on the first page behind the words.
    fn data_start(&self) -> u32
        requires { built.IsBuildable self.now }
        ensures { result ≡ built.data_start self.now }
    {
        (self.base + self.words_len() + (PAGE_BYTES - 1)) / PAGE_BYTES * PAGE_BYTES
    }

    /// The ELF header: an executable for RISC-V with two program headers.
    pub(crate) fn header(&self) -> FileHeader
        ensures { result ≡ built.built_header self.now }
    {
        FileHeader {
            e_type: ET_EXEC,
            e_machine: EM_RISCV,
            e_version: EV_CURRENT as u32,
            e_entry: self.entry,
            e_phoff: FILE_HEADER_LEN as u32,
            e_flags: 0,
            e_ehsize: FILE_HEADER_LEN as u16,
            e_phentsize: PROGRAM_HEADER_LEN as u16,
            e_phnum: HEADERS as u16,
        }
    }

    /// The program header of the words, which are read and executed.
    pub(crate) fn words_header(&self) -> ProgramHeader
        requires { built.IsBuildable self.now }
        ensures { result ≡ built.words_header self.now }
    {
        ProgramHeader {
            place: FILE_HEADER_LEN as u32,
            p_type: PT_LOAD,
            p_offset: WORDS_PLACE,
            p_vaddr: self.base,
            p_filesz: self.words_len(),
            p_memsz: self.words_len(),
            p_flags: PF_R | PF_X,
        }
    }

    /// The program header of the data, which is read and written.
    pub(crate) fn data_header(&self) -> ProgramHeader
        requires { built.IsBuildable self.now }
        ensures { result ≡ built.data_header self.now }
    {
        let len = self.bytes.len() as u32;
        ProgramHeader {
            place: (FILE_HEADER_LEN + PROGRAM_HEADER_LEN) as u32,
            p_type: PT_LOAD,
            p_offset: WORDS_PLACE + self.words_len(),
            p_vaddr: self.data_start(),
            p_filesz: len,
            p_memsz: len + self.zeros,
            p_flags: PF_R | PF_W,
        }
    }

    /// Appends the headers, the words and the bytes.
    #[tactic(auto, unfolding(crate::specs::Built::image_file))]
    pub(crate) fn write(&self, file: &mut Vec<u8>) -> Result<(), NoMemory>
        requires { built.IsBuildable self.now }
        ensures written { OnOk result (file.new.items ≡ file.old.items ++ built.image_file self.now) }
        ensures words { OnOk result (ReadBack self.now.words.items) }
    {
        self.header().write(file)?;
        self.words_header().write(file)?;
        self.data_header().write(file)?;
        push_words(file, &self.words)?;
        file.extend_from_slice(&self.bytes)?;
        Ok(())
    }
}
