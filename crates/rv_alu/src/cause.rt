//! Why an instruction traps: the exception codes of `mcause` (RISC-V privileged manual, 'Machine
//! Cause Register').

/// A jump or a taken branch to an address that is no multiple of 4.
pub const INSTRUCTION_ADDRESS_MISALIGNED: u8 = 0;

/// No code stands at the pc.
pub const INSTRUCTION_ACCESS_FAULT: u8 = 1;

/// The word at the pc means no instruction.
pub const ILLEGAL_INSTRUCTION: u8 = 2;

/// An EBREAK.
pub const BREAKPOINT: u8 = 3;

/// A load or LR at an address that is no multiple of its size.
pub const LOAD_ADDRESS_MISALIGNED: u8 = 4;

/// A load or LR outside memory.
pub const LOAD_ACCESS_FAULT: u8 = 5;

/// A store, SC or atomic operation at an address that is no multiple of its size.
pub const STORE_ADDRESS_MISALIGNED: u8 = 6;

/// A store, SC or atomic operation outside memory.
pub const STORE_ACCESS_FAULT: u8 = 7;
