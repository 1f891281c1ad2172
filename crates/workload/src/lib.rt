//! Images of programs that harts run together under locks: six kinds, each made with a number.
//!
//! It stands on the builder of `rv_asm` and the writer of images of `elf_image`, and takes memory for a program and its
//! file. [`build`] gives a file without a fault for any number of harts: the words of the listing of its kind, which
//! stands in `specs/`, and the data of the kind with the number at its start. What a run of the program comes to is
//! tested; no contract speaks of it.
//!
//! A lock is taken as the spinlock of the RISC-V unprivileged manual does it, or by LR.W and SC.W; where a doc comment names no other source,
//! its rule is this project's profile.
#![tactic(auto)]

mod building;
mod data;
mod ending;
mod layout;
mod mnemonics;
mod parts;
mod program;
mod registers;
mod rounds;
mod work;

pub use building::build;
pub use work::Work;
