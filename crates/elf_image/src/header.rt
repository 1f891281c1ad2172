//! The ELF header, of the ELF specification's chapter 'ELF Header', with the values that the RISC-V
//! ELF psABI gives it (ELF Object Files, File Header).

ghost use Rattle.std.specs.Prelude.{◌≡◌, ◌≤◌, ◌<◌, ◌++◌, None, Some, IfSome, IfErr, OnOk, length};
ghost use Rattle.elf_image.specs.Header.{file_header, file_header_bytes, HasTable};
ghost use Rattle.elf_image.specs.Faults as faults;
ghost use Rattle.elf_image.specs.Limits.{file_limit};

use crate::bytes::{half_at, push_halves, push_words, word_at};
use crate::fault::FaultKind;
use crate::limits::PROGRAM_HEADER_LIMIT;
use crate::program_header::PROGRAM_HEADER_LEN;
use el_base::{FileFault, FormatFault, NoMemory};

/// The bytes of an ELF header of class ELFCLASS32.
pub const FILE_HEADER_LEN: usize = 52;

/// The first four bytes of an ELF file, EI_MAG0 to EI_MAG3.
const ELF_MAGIC: [u8; 4] = [0x7f, b'E', b'L', b'F'];

// The places of the fields in the file.
const EI_CLASS: usize = 4;

const EI_DATA: usize = 5;

const EI_VERSION: usize = 6;

const E_TYPE: u32 = 16;

const E_MACHINE: u32 = 18;

const E_VERSION: u32 = 20;

pub const E_ENTRY: u32 = 24;

pub const E_PHOFF: u32 = 28;

const E_FLAGS: u32 = 36;

const E_EHSIZE: u32 = 40;

const E_PHENTSIZE: u32 = 42;

pub const E_PHNUM: u32 = 44;

// The values that are taken.
const ELFCLASS32: u8 = 1;

const ELFDATA2LSB: u8 = 1;

pub const EV_CURRENT: u8 = 1;

pub const ET_EXEC: u16 = 2;

pub const EM_RISCV: u16 = 243;

/// The bytes of e_ident behind EI_VERSION.
const IDENT_PADDING: usize = 9;

/// The flags of compressed instructions (EF_RISCV_RVC), of a floating-point ABI
/// (EF_RISCV_FLOAT_ABI) and of the embedded base (EF_RISCV_RVE). That of total store order, 0x10, is
/// taken: plain shared memory keeps it.
const EF_REFUSED: u32 = 0xf;

/// The fields of the ELF header that are read.
#[derive(Clone, Copy, Debug)]
pub struct FileHeader {
    pub e_type: u16,
    pub e_machine: u16,
    pub e_version: u32,
    pub e_entry: u32,
    pub e_phoff: u32,
    pub e_flags: u32,
    pub e_ehsize: u16,
    pub e_phentsize: u16,
    pub e_phnum: u16,
}

impl FileHeader {
    /// The header at the start of a file.
    #[tactic(auto, unfolding(crate::specs::Header::file_header))]
    pub fn read(file: &[u8]) -> FileHeader
        requires { 52 ≤ length file.now }
        ensures { result ≡ file_header file.now }
    {
        FileHeader {
            e_type: half_at(file, E_TYPE as usize),
            e_machine: half_at(file, E_MACHINE as usize),
            e_version: word_at(file, E_VERSION as usize),
            e_entry: word_at(file, E_ENTRY as usize),
            e_phoff: word_at(file, E_PHOFF as usize),
            e_flags: word_at(file, E_FLAGS as usize),
            e_ehsize: half_at(file, E_EHSIZE as usize),
            e_phentsize: half_at(file, E_PHENTSIZE as usize),
            e_phnum: half_at(file, E_PHNUM as usize),
        }
    }

    /// Appends the header to a file, which has no sections.
    #[tactic(auto, unfolding(crate::specs::Header::file_header_bytes))]
    pub fn write(&self, file: &mut Vec<u8>) -> Result<(), NoMemory>
        ensures { OnOk result (file.new.items ≡ file.old.items ++ file_header_bytes self.now) }
    {
        file.extend_from_slice(&ELF_MAGIC)?;
        file.extend_from_slice(&[ELFCLASS32, ELFDATA2LSB, EV_CURRENT])?;
        file.extend_from_slice(&[0; IDENT_PADDING])?;
        push_halves(file, &[self.e_type, self.e_machine])?;
        push_words(
            file,
            &[self.e_version, self.e_entry, self.e_phoff, 0, self.e_flags],
        )?;
        push_halves(
            file,
            &[self.e_ehsize, self.e_phentsize, self.e_phnum, 0, 0, 0],
        )
    }

    /// Judges the header of a file of `file_len` bytes: an executable for RISC-V whose program headers
    /// all lie in the file.
    #[tactic(auto, unfolding(crate::specs::Faults::header_fault))]
    pub fn check(&self, file_len: usize) -> Result<(), FileFault>
        ensures accepted { OnOk result (faults.header_fault self.now file_len ≡ None) }
        ensures refused { IfErr result (λ fault. faults.header_fault self.now file_len ≡ Some fault) }
        ensures table { OnOk result (HasTable self.now file_len) }
    {
        if self.e_version != EV_CURRENT as u32 {
            return Err(FaultKind::Version.at(E_VERSION));
        }
        if self.e_type != ET_EXEC {
            return Err(FaultKind::FileKind.at(E_TYPE));
        }
        if self.e_machine != EM_RISCV {
            return Err(FaultKind::Machine.at(E_MACHINE));
        }
        if self.e_flags & EF_REFUSED != 0 {
            return Err(FaultKind::Flags.at(E_FLAGS));
        }
        self.check_table(file_len)
    }

    /// Judges the form of the table: the sizes are those of class ELFCLASS32, and the table lies in a
    /// file of `file_len` bytes.
    fn check_table(&self, file_len: usize) -> Result<(), FileFault>
        ensures accepted { OnOk result (faults.table_fault self.now file_len ≡ None) }
        ensures refused { IfErr result (λ fault. faults.table_fault self.now file_len ≡ Some fault) }
        ensures table { OnOk result (HasTable self.now file_len) }
    {
        if self.e_ehsize as usize != FILE_HEADER_LEN {
            return Err(FaultKind::Table.at(E_EHSIZE));
        }
        if self.e_phnum as usize > PROGRAM_HEADER_LIMIT {
            return Err(FaultKind::Table.at(E_PHNUM));
        }
        if self.e_phnum >= 1 && self.e_phentsize as usize != PROGRAM_HEADER_LEN {
            return Err(FaultKind::Table.at(E_PHENTSIZE));
        }
        if self.e_phoff as usize + self.e_phnum as usize * PROGRAM_HEADER_LEN > file_len {
            return Err(FaultKind::Table.at(E_PHOFF));
        }
        Ok(())
    }
}

/// Judges e_ident: an ELF file of 32 bits, little endian, in the current version.
#[tactic(auto, unfolding(crate::specs::Faults::ident_fault))]
pub fn check_ident(file: &[u8]) -> Result<(), FileFault>
    requires { length file.now ≤ file_limit }
    ensures accepted { OnOk result (faults.ident_fault file.now ≡ None) }
    ensures refused { IfErr result (λ fault. faults.ident_fault file.now ≡ Some fault) }
    ensures whole { OnOk result (52 ≤ length file.now) }
{
    if file.len() < FILE_HEADER_LEN {
        return Err(FaultKind::Short.at(file.len() as u32));
    }
    if let Some(place) = magic_difference(file) {
        return Err(FaultKind::Magic.at(place as u32));
    }
    if file[EI_CLASS] != ELFCLASS32 {
        return Err(FaultKind::Class.at(EI_CLASS as u32));
    }
    if file[EI_DATA] != ELFDATA2LSB {
        return Err(FaultKind::ByteOrder.at(EI_DATA as u32));
    }
    if file[EI_VERSION] != EV_CURRENT {
        return Err(FaultKind::Version.at(EI_VERSION as u32));
    }
    Ok(())
}

/// The place of the first byte that is not ELF's.
fn magic_difference(file: &[u8]) -> Option<usize>
    ensures exact { result ≡ faults.magic_difference file.now }
    ensures below { IfSome result (λ place. place < 4) }
{
    file.iter()
        .zip(&ELF_MAGIC)
        .position(|(byte, wanted)| byte != wanted)
}
