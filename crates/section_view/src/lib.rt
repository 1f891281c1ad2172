//! Laws of what the code keeps of a live or an armed section: its hart's present view and its buffered stores tell what
//! the section's private run has come to. An armed section stores nothing; beside its view the value is kept that its LR
//! found.
//!
//! In the definition a live section shows what the steps of its hart alone come to, from what is committed now. Code
//! runs each of its instructions once, and keeps the view and the bytes that were stored. The relation between the two
//! stands in `specs/KeptRun.antt`; these laws begin it, carry it on over each covered instruction and over each change
//! that other harts commit, and end it at the release. They stand on the laws of private runs in `run_laws`, and speak
//! of buffered stores as `write_hold` does. The functions of this crate do nothing; each says one law, as its contract.
//!
//! The ideas are those of R. Rajwar and J. R. Goodman, 'Speculative Lock Elision', MICRO 2001, and
//! 'Transactional Lock-Free Execution of Lock-Based Programs', ASPLOS 2002; the rules are this project's profile.
#![tactic(auto)]

mod theorems;

pub use theorems::{
    armed_sections_begin, armed_sections_come_to, armed_sections_elide, armed_sections_go_on,
    committed_is_of_its_program, conditionals_act, kept_armed_runs_survive, kept_runs_survive,
    marks_stay, released_views_are_told, releases_store_their_word, reserves_act, sections_begin,
    sections_come_to, sections_commit, sections_do_as_shown, sections_go_on,
    sections_show_their_bytes, swaps_act,
};
