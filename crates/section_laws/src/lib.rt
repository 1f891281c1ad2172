//! Laws of the machine's definition: what holds of every state that can be reached, whatever the events, in every
//! mode, and what becomes of the sections that begin.
//!
//! It stands on the definition in `el_model` alone, and no machine's code is spoken of here. The functions of this
//! crate do nothing; each says one law, as its contract. The laws are words of `specs/`; an invariant is proved in
//! a file of `proofs/` named for it, as what each deed of a hart and each event of the bus keeps.
//!
//! The ideas are those of R. Rajwar and J. R. Goodman, 'Speculative Lock Elision', MICRO 2001, and
//! 'Transactional Lock-Free Execution of Lock-Based Programs', ASPLOS 2002; the rules are this project's profile.
#![tactic(auto)]

mod theorems;

pub use theorems::{
    armed_harts_wait_for_nothing, armed_sections_are_short, armed_sections_have_one_read_bit,
    begun_sections_are_accounted_for, caches_are_shaped, copies_are_coherent,
    counters_stay_in_range, each_hart_waits_for_one, messages_are_fewer_than_harts,
    messages_name_others_once, no_hart_is_live_and_armed, no_set_has_a_line_twice,
    none_begins_after_rollback, one_ordered_request_each, only_live_sections_have_bits,
    ordered_writes_meet_no_armed_hart, requests_are_numbered, section_steps_are_of_five_kinds,
    serial_order_is_no_longer, tries_stay_below_four, waiting_lines_have_room,
    waiting_writes_are_spared, written_lines_are_elsewhere_in_no_cache, written_lines_are_few,
    written_lines_may_be_written,
};
