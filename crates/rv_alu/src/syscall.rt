ghost use Rattle.std.specs.Prelude.{◌≡◌, ◌≤◌, ◌-◌};
ghost use Rattle.rv_alu.specs.Syscall.{call_of, error_of, write_call_of};

use crate::abi::{A0, A1, A2, A7};
use crate::action::Action;
use crate::regs::Regs;
use crate::span::Span;
use el_base::LINE_BYTES;

/// The number of the Linux RISC-V system call `exit`.
const EXIT_NUMBER: u32 = 93;

/// The number of the Linux RISC-V system call `write`.
const WRITE_NUMBER: u32 = 64;

/// Linux's error number of a bad file.
const EBADF: u32 = 9;

/// Linux's error number of a bad address.
const EFAULT: u32 = 14;

/// Linux's error number of no space.
const ENOSPC: u32 = 28;

/// Linux's error number of a call that is not there.
const ENOSYS: u32 = 38;

/// How the write call that these registers ask for goes, where the output has room for `room`
/// bytes. The tests, in this order: the file is 1 or 2, both of which are the one output (else -9,
/// 'bad file'); the length is not 0 (else 0); the line of the first byte is in memory (else -14,
/// 'bad address'); the output has room (else -28, 'no space'). It then writes no further than the
/// end of the line and no more than the room. (Arguments and errors as in Linux; short writes are
/// this project's profile.)
pub fn write_call(regs: &Regs, span: Span, room: u32) -> Action
    ensures { result ≡ write_call_of regs.now span room }
{
    let file = regs.get(A0);
    let address = regs.get(A1);
    let count = regs.get(A2);
    if file != 1 && file != 2 {
        return Action::Answer {
            value: error(EBADF),
        };
    }
    if count == 0 {
        return Action::Answer { value: 0 };
    }
    let in_line = address % LINE_BYTES;
    if !span.holds(address - in_line, LINE_BYTES) {
        return Action::Answer {
            value: error(EFAULT),
        };
    }
    if room == 0 {
        return Action::Answer {
            value: error(ENOSPC),
        };
    }
    Action::Append {
        address,
        len: count.min((LINE_BYTES - in_line).min(room)),
    }
}

/// A system call, by its number in x17: one that is neither exit nor write is answered with -38, 'no
/// such call'.
pub fn call(regs: &Regs, span: Span, room: u32) -> Action
    ensures { result ≡ call_of regs.now span room }
{
    match regs.get(A7) {
        EXIT_NUMBER => Action::Exit { code: regs.get(A0) },
        WRITE_NUMBER => write_call(regs, span, room),
        _ => Action::Answer {
            value: error(ENOSYS),
        },
    }
}

/// A Linux error number as a system call answers it.
fn error(number: u32) -> u32
    requires { 1 ≤ number }
    ensures { result ≡ error_of number }
{
    u32::MAX - (number - 1)
}
