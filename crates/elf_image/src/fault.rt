//! What is wrong with a file that is no image.

use el_base::{FormatFault, Numbered};

/// The sixteen faults of an image in the order in which they are judged. Their numbers, names and order
/// are this project's.
#[derive(Clone, Copy, Debug, PartialEq, Eq)]
pub enum FaultKind {
    /// The file is shorter than an ELF header, which has 52 bytes.
    Short = 1,
    /// The file does not begin with ELF's four magic bytes.
    Magic,
    /// EI_CLASS is not ELFCLASS32.
    Class,
    /// EI_DATA is not ELFDATA2LSB.
    ByteOrder,
    /// EI_VERSION or e_version is not EV_CURRENT.
    Version,
    /// e_type is not ET_EXEC.
    FileKind,
    /// e_machine is not EM_RISCV.
    Machine,
    /// e_flags names compressed instructions, a floating-point ABI in registers or the embedded base.
    Flags,
    /// The table of program headers has another form or more than 64 headers, or leaves the file.
    Table,
    /// A program header asks for a dynamic linker.
    Dynamic,
    /// A segment has more bytes in the file than in memory, or leaves the file.
    Segment,
    /// Two segments share a byte of memory.
    Overlap,
    /// Memory with the stacks has more than 16,777,216 bytes.
    TooWide,
    /// Memory with the stacks ends above `0xffff0000`.
    TooHigh,
    /// The entry is no instruction's address in an executable segment.
    Entry,
    /// No segment is loaded.
    Empty,
}

impl Numbered for FaultKind {
    ghost use Rattle.elf_image.specs.FaultKinds as faults;

    ghost kinds = { faults.fault_kinds };

    ghost number_of = { faults.number_of };

    ghost name_of = { faults.name_of };

    fn all() -> &'static [FaultKind] {
        &[
            FaultKind::Short,
            FaultKind::Magic,
            FaultKind::Class,
            FaultKind::ByteOrder,
            FaultKind::Version,
            FaultKind::FileKind,
            FaultKind::Machine,
            FaultKind::Flags,
            FaultKind::Table,
            FaultKind::Dynamic,
            FaultKind::Segment,
            FaultKind::Overlap,
            FaultKind::TooWide,
            FaultKind::TooHigh,
            FaultKind::Entry,
            FaultKind::Empty,
        ]
    }

    fn number(self) -> u8 {
        self as u8
    }

    fn name(self) -> &'static str {
        match self {
            FaultKind::Short => "Short",
            FaultKind::Magic => "Magic",
            FaultKind::Class => "Class",
            FaultKind::ByteOrder => "ByteOrder",
            FaultKind::Version => "Version",
            FaultKind::FileKind => "FileKind",
            FaultKind::Machine => "Machine",
            FaultKind::Flags => "Flags",
            FaultKind::Table => "Table",
            FaultKind::Dynamic => "Dynamic",
            FaultKind::Segment => "Segment",
            FaultKind::Overlap => "Overlap",
            FaultKind::TooWide => "TooWide",
            FaultKind::TooHigh => "TooHigh",
            FaultKind::Entry => "Entry",
            FaultKind::Empty => "Empty",
        }
    }
}

impl FormatFault for FaultKind {}
