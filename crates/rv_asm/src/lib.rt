//! A builder of RISC-V instruction words, with labels that branches and jumps go to.
//!
//! It stands on the instructions of `rv_word` and takes memory as the program grows. [`Asm`] is seen as
//! what was put, one item a word, and the place of each label. [`Asm::finish`] gives the words of exactly these
//! items, or the one fault that `specs/Finished.antt` names: the least label that is used and has no place, and
//! where there is none, the first branch or jump that cannot reach its label. It says nothing of what a program
//! does.
#![tactic(auto)]

mod builder;
mod fault;
mod item;

pub use builder::{Asm, MOST_LABELS, MOST_WORDS};
pub use fault::AsmFault;
pub use item::Label;
