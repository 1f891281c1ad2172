//! What harts fetch from, with the instructions that were decoded last.
//!
//! The crate stands on the code of `elf_image`, the decoder of `rv_word` and the actions of `rv_alu`. A
//! [`Fetch`] is seen as the code alone, which no store changes. So nothing of what it has kept can be seen, and
//! nothing makes it forget: [`Fetch::next`] tells what an instruction does exactly as if its word had been read
//! and decoded again. [`Fetch::make`] takes all memory.
//!
//! That a processor keeps decoded instructions by their addresses is common: B. Solomon, A. Mendelson, R. Ronen,
//! D. Orenstien and Y. Almog, 'Micro-Operation Cache: A Power Aware Frontend for Variable Instruction Length ISA',
//! IEEE Transactions on VLSI Systems 11(5), 2003. The table here is this project's own.
#![tactic(auto)]

mod decoded;
mod fetch;

pub use fetch::Fetch;
