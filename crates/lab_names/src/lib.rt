//! Addresses as the laboratory writes them: eight hexadecimal digits, and behind them the nearest symbol.
//!
//! It stands on the symbols of `elf_symbols`, and takes no memory.
//!
//! Where a doc comment names no other source, its rule is this project's profile.
#![tactic(auto)]

mod named;

pub use named::{Named, Spot, spot_of};
