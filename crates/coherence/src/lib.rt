//! Main memory and the caches of all harts: what a served request does to the copies of lines.
//!
//! It stands on `cache_sets`, `moesi`, `elf_image` and the words of `el_model`. The bytes of the caches' lines
//! lie in one pool of `line_pool`, which the calls that need them are given. The copies of a line and main memory
//! tell one thing (`AreCoherent` in `specs/Caches.antt`): each copy has the line's bytes; a copy that may be written
//! is the only one; at most one is a copy that main memory may be behind; and where there is none such, main memory
//! has the bytes. [`Hierarchy::serve`] keeps it so, whatever the bytes are, and leaves in each cache the residency
//! that the machine's definition says. Only `make` takes memory. Who may ask for a line, and when, is not its matter.
//!
//! The letters are those of the MOESI protocol (P. Sweazey and A. J. Smith, 'A Class of Compatible Cache
//! Consistency Protocols and their Support by the IEEE Futurebus', ISCA 1986). Where a doc comment names
//! no other source, its rule is this project's profile.
#![tactic(auto)]

mod beginning;
mod changing;
mod fetching;
mod found;
mod hierarchy;
mod keeping;
mod others;

pub use hierarchy::Hierarchy;
