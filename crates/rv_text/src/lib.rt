//! The text of an instruction word, as GNU objdump writes it.
//!
//! It stands on `rv_word` and takes no memory. [`Text`] is a word at an address; its `Display` writes the mnemonic, a
//! space and the operands, with registers by their ABI names and the target of a branch or jump as an address.
//! [`Pseudo`] names the pseudoinstruction that objdump writes in place of an instruction, and [`Pseudo::of`] is proved
//! to choose, among all that stand for the instruction, the first one.
//!
//! Names are those of the RISC-V unprivileged manual, chapter 'RISC-V Assembly Programmer's Handbook'. The spelling is
//! that of GNU objdump 2.40, where an instruction with an immediate has the short name of its operation: `add a0,a1,-1`.
#![tactic(auto)]

mod names;
mod pseudos;
mod targets;
mod texts;

pub use names::abi_name;
pub use pseudos::{Pseudo, ZeroTest};
pub use targets::target;
pub use texts::Text;
