//! One hart's cache: sets of lines, each most recent first.
//!
//! It stands on `el_base`, `line_pool`, `moesi` and `bitflags`, and only `make` takes memory. Contracts see a cache as a
//! `Slotted` (`specs/Slotted.antt`): how many ways a set has, the lines of each set with their letters and bits, and the
//! slot of each line in a pool. Each call says what it makes of the cache that the pool lends, with the bytes of each
//! line (`specs/Cached.antt`), and nothing of other harts' caches.
//!
//! Where a doc comment names no other source, its rule is this project's profile.
#![tactic(auto)]

mod bits;
mod evicted;
mod line;
mod set;
mod sets;
mod way;

pub use bits::Bits;
pub use evicted::Evicted;
pub use moesi::Letter;
pub use sets::Sets;
