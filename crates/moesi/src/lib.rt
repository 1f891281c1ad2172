//! The letters of the MOESI protocol, and how they change.
//!
//! It stands on `el_base` alone, and no call of it takes memory. `specs/Letters.antt` is the table of
//! the letters, and each call equals its column of the table.
//!
//! Where a doc comment names no other source, its rule is this project's profile.
#![tactic(auto)]

mod letter;
mod table;

pub use letter::Letter;
pub use table::{filled, is_dirty, may, on_read, on_write};
