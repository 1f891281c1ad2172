//! The registers that programs and the system speak through, under their names in the calling
//! convention (RISC-V ELF psABI, 'Register Convention').

use rv_word::Reg;

/// The stack pointer.
pub const SP: Reg = Reg { number: 2 };

/// The first argument of a call, and its answer.
pub const A0: Reg = Reg { number: 10 };

/// The second argument.
pub const A1: Reg = Reg { number: 11 };

/// The third argument.
pub const A2: Reg = Reg { number: 12 };

/// The number of a system call.
pub const A7: Reg = Reg { number: 17 };
