//! One hart's buffered stores: lines, each with the bytes that a section has stored in it and that no
//! other hart sees before the section commits.
//!
//! It stands on `el_base`, `line_lanes`, `line_pool` and `rv_alu`, and only `make` takes memory. The bytes of each line
//! are in a slot of a pool. A hold is seen as how many lines it may hold and the list of those that it holds, each with
//! a mask of the places that were stored and their bytes (`specs/Held.antt`), as the pool lends them
//! (`specs/Slotted.antt`).
//! Contracts speak of it by `held`, the byte that it has for an address if it has one, and by `holds`,
//! whether it has a line. What a put promises is told byte by byte, so two of them compose by the law of
//! `laid` alone. Laws of a look-up after each call, the same line and another, stand in
//! `proofs/Laws/LookUps.antt`.
//!
//! Where a doc comment names no other source, its rule is this project's profile.
#![tactic(auto)]

mod entry;
mod hold;
mod lines;

pub use el_base::LineAddr;
pub use hold::Hold;
pub use lines::Lines;
