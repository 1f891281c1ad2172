//! One instruction of a hart over the lines of its own cache.
//!
//! It stands on `core_step`, which runs an instruction over any port, and on the caches of `cache_sets`, whose lines
//! lie in a pool: the port is a cache that was lent, and a letter permits what it may be read or written for. Where the
//! instruction ran, the line that it touched is the most recent one of its set, and a written one is modified.
//! The laws tie this to plain shared memory: caches and main memory that tell one thing of each line
//! (`coherence`) tell the bytes after the instruction, which is that of plain memory. They are contracts of
//! functions that do nothing. No call takes memory.
//!
//! Where a doc comment names no other source, its rule is this project's profile.
#![tactic(auto)]

mod line_bytes;
mod port;
mod step;
mod theorems;

pub use step::step_in_cache;
pub use theorems::{
    cached_bytes_equal_memory, caches_tell_memory_after, permitted_steps_are_flat,
    runs_keep_the_form, steps_show_their_rule, touched_lines_are_there, unmarked_caches_have_room,
};
