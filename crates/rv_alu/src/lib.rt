//! What an RV32IMA instruction does to one hart, over any memory.
//!
//! The crate stands on the instructions of `rv_word` and the lines of `el_base`. An instruction is
//! one value: [`Action::at`] reads its registers and makes its checks (none of this needs memory),
//! `footprint` tells what it touches, `loads` which number it wants of memory, and `perform` does it
//! to the hart's view and tells what is left to store and to append to the output. Beside that stand
//! the registers and the view of a hart and the results of the operations (`alu`, `taken`, `amo`,
//! `extend`). Every call is total, takes no memory and equals its definition in `specs/`, which is
//! in the terms of the RISC-V unprivileged manual, chapter 2 and the chapters on the M and A
//! extensions. What the manual leaves to the system is this project's profile: misaligned accesses
//! trap, a trap stops its hart, and there are two system calls, write and exit.
//!
//! The definition of `access`, `alu`, `taken`, `amo` and `extend` has the name with `_of` behind it; that
//! of `touched` and of a method has its own name, but for [`Action::at`] and [`Action::of`], which have
//! `action_at` and `action_of`, and for [`Regs::zero`], which is 32 zeros.
#![tactic(auto)]

pub mod abi;
mod action;
pub mod cause;
mod checks;
mod effects;
mod footprint;
mod operation;
mod regs;
mod span;
mod syscall;
mod transfers;
mod view;

pub use action::Action;
pub use checks::{access, touched};
pub use footprint::Access;
pub use operation::{alu, amo, extend, taken};
pub use regs::Regs;
pub use span::Span;
pub use transfers::{Append, Load, Store, Transfers};
pub use view::{HartStatus, HartView};
