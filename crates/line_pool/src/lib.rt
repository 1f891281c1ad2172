//! One pool of slots of 64 bytes, which owners take and give back, each within a quota of its own.
//!
//! It stands on `el_base`, and only `make` takes memory: all slots are taken at once, and so is room for the places of
//! those that are free. Every other call takes the same time, however many slots there are. Contracts see a pool as a
//! `Pooled` (`specs/Pooled.antt`): how many slots each owner has, which of them are out, and the bytes of each slot. Who
//! keeps a list of slots finds in `specs/Keeping.antt` what it may rely on, and in `proofs/Laws.antt` that no call of
//! another owner changes that.
//!
//! Where a doc comment names no other source, its rule is this project's profile.
#![tactic(auto)]

mod pool;
mod share;
mod slot;

pub use el_base::NoMemory;
pub use pool::{MAX_OWNERS, Pool};
pub use slot::Slot;

#[cfg(test)]
mod tests;
