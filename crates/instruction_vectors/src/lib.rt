//! Worked examples of instructions, of images and of runs on plain memory, against the RISC-V manual and GNU as.
//!
//! The crate stands on `rv_word`, `rv_alu`, `rv_asm`, `rv_text`, `elf_image`, `fetch` and `rv_flat`, and holds nothing but tests of their public calls. It is
//! a crate of its own since the tests of a crate prove all of that crate once more.
#![tactic(auto)]

#[cfg(test)]
mod alu;
#[cfg(test)]
mod assembly;
#[cfg(test)]
mod asserts;
#[cfg(test)]
mod decoding;
#[cfg(test)]
mod fetching;
#[cfg(test)]
mod flat;
#[cfg(test)]
mod images;
#[cfg(test)]
mod texts;
