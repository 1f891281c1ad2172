//! Which rule a step follows.
//!
//! It stands on `snoop` (the bus, with the caches), on the actions of `rv_alu`, and on the words of `el_model`. A
//! step's action is found once ([`rv_alu::Action::at`]); this crate says what that action is to the rules, and chooses
//! the rule of a hart outside of a section, with an armed one, and inside of a live one. It changes nothing: what a rule
//! does is the machine's part. Each choice is the definition's, for every state that the bus shows. No call takes memory.
//!
//! The ideas are those of R. Rajwar and J. R. Goodman, 'Speculative Lock Elision', MICRO 2001, and
//! 'Transactional Lock-Free Execution of Lock-Based Programs', ASPLOS 2002; where a doc comment names no
//! other source, its rule is this project's profile.
#![tactic(auto)]

mod action;
mod armed;
mod in_section;
mod plain;
mod upcoming;
mod words;

pub use armed::{ArmedRule, armed_rule};
pub use in_section::{Progress, SectionRule, is_covered, section_rule};
pub use plain::{PlainRule, plain_rule};
pub use upcoming::{
    Exchange, Swap, Touch, calls_or_stops, conditional_of, exchange_of, is_conditional, is_quiet,
    is_release, reserve_of, seen_by, stores_to_word, swap_of, touch_of,
};
pub use words::word_in;

#[cfg(test)]
mod tests;
