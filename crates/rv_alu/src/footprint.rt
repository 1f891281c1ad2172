/// What the next instruction would touch, or how it would stop its hart (RISC-V unprivileged
/// manual, chapter 2 and 'A Standard Extension for Atomic Instructions'; that misaligned accesses
/// trap, that a trap stops its hart, and the exit call are this project's profile).
#[derive(Clone, Copy, Debug, PartialEq, Eq)]
pub enum Access {
    /// No memory.
    Nothing,
    /// It reads `len` bytes from `address` on, in one line of 64 bytes.
    Read { address: u32, len: u32 },
    /// It writes `len` bytes from `address` on, in one line; an atomic operation reads them too.
    Write { address: u32, len: u32 },
    /// It traps with this cause, one of [`crate::cause`].
    Trap { cause: u8 },
    /// It makes the exit call with this code.
    Exit { code: u32 },
}
