//! Lines of 64 bytes: words in them are read and put, and lines are merged and compared eight bytes at a time.
//!
//! It stands on std alone, and no call of it takes memory. A mask has one bit for each byte of a line, the lowest for
//! the first. Each call is told byte by byte (`specs/Words.antt`, `specs/Merged.antt`), as if there were no lanes. Laws
//! that callers need of a word in a line and of a merged line stand in `proofs/Laws.antt`.
//!
//! Where a doc comment names no other source, its rule is this project's profile.
#![tactic(auto)]

mod lanes;
mod line;

pub use line::{merge, merged_word, put_word, same, word_at};
