//! Laws of what live and armed sections show: whatever the events, in every mode, a section's private run is covered by its access
//! bits, and another hart's event leaves what it shows while it lives: its view, and each byte whose committed value stays.
//!
//! In the definition a live section has no bytes: it shows what the steps of its hart alone come to, from what is
//! committed now. A machine's code keeps registers and buffered bytes in their place and never runs a section twice;
//! these laws are why it may. They stand on the definition in `el_model` and on the laws of the states that can be
//! reached in `section_laws`. The functions of this crate do nothing; each says one law, as its contract. What is said
//! of a private run stands in `specs/PrivateRun.antt`.
//!
//! The ideas are those of R. Rajwar and J. R. Goodman, 'Speculative Lock Elision', MICRO 2001, and
//! 'Transactional Lock-Free Execution of Lock-Based Programs', ASPLOS 2002; the rules are this project's profile.
#![tactic(auto)]

mod theorems;

pub use theorems::{
    armed_runs_keep_all_but_a_view, armed_runs_survive, armed_sections_run_covered,
    covered_runs_show_their_own, covered_runs_survive, letting_go_changes_nothing_beside,
    letting_go_leaves_memory, live_sections_run_covered, loaded_programs_are_bytes,
    other_harts_change_nothing_covered, other_harts_change_nothing_shown, releases_commit,
    sections_survive_other_harts,
};
