//! Laws of single events of the machine's definition, in the form in which a machine's code asks for them: what an
//! event leaves as it was, what becomes of a hart by its own step, what any other event leaves of its section, what
//! ends one, which harts are let go, and how large clocks and counts become.
//!
//! They stand on the definition in `el_model` and on the laws of states that can be reached in `section_laws`,
//! `run_laws` and `removal_laws`. The functions of this crate do nothing; each says one law, as its contract. The
//! words stand in `specs/`, one file for each thing that is spoken of.
//!
//! The ideas are those of R. Rajwar and J. R. Goodman, 'Speculative Lock Elision', MICRO 2001, and 'Transactional
//! Lock-Free Execution of Lock-Based Programs', ASPLOS 2002; the rules are this project's profile.
#![tactic(auto)]

mod theorems;

pub use theorems::{
    bus_events_keep, bus_events_let_harts_go, clocks_are_few, only_live_sections_lose, own_commits,
    own_deeds, own_outcomes, own_rollbacks, sections_are_short, steps_keep_others,
    survivors_keep_bits, survivors_keep_what_they_show, watches_are_short, what_ends_a_section,
};
