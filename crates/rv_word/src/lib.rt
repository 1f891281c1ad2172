//! The instruction words of RV32I and its M and A extensions: `Insn` names each instruction with
//! its fields, `decode` reads a word and `encode` writes one.
//!
//! It stands on std alone, takes no memory, and promises that both are the manual's listing, read
//! in either direction: that is the relation `Means` of `specs/Meaning.antt`, one clause for each
//! instruction, with the codes of the operations in tables beside it. `decoded` is that relation
//! as a function, for the definitions of the layers above. Nothing here says what an instruction
//! does.
#![tactic(auto)]

mod code;
mod decoding;
mod encoding;
mod field;
mod form;
mod immediate;
mod insn;
mod opcode;
mod reg;
mod theorems;
mod validity;

pub use decoding::decode;
pub use encoding::encode;
pub use insn::{Alu, AmoOp, Insn, LoadWidth, StoreWidth, Test};
pub use reg::Reg;
pub use theorems::{decode_encoded, encode_decoded};
