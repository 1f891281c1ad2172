//! Laws of lock removal on the machine's definition: whom a section may lose to, which stamps attempts have, and when
//! no section retains a line.
//!
//! It stands on the definition in `el_model` and on the laws of `section_laws`, and no machine's code is spoken of here.
//! The functions of this crate do nothing; each says one law, as its contract. `specs/Facts.antt` has the facts that hold
//! together between the harts of a queue, their mailboxes and their sections.
//!
//! The ideas are those of R. Rajwar and J. R. Goodman, 'Transactional Lock-Free Execution of Lock-Based Programs',
//! ASPLOS 2002; the rules are this project's profile.
#![tactic(auto)]

mod theorems;

pub use theorems::{
    attempts_are_current, facts_hold_throughout, head_is_served, later_attempts_are_later,
    later_than_deferred_heads, later_than_winners, least_ends_its_own_section,
    least_stamp_is_not_retained, least_stamp_never_loses, losers_lose_to_earlier,
    stamps_are_distinct, stamps_are_kept,
};
