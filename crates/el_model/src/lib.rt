//! The machine as its definition has it: one state, and what each event does to it.
//!
//! A state is the committed state of plain shared memory, one record a hart, and the order of requests;
//! the only bytes in it are the committed ones. There is no copy of a line, no buffered store, no checkpoint:
//! what a live section shows is the run of its instructions alone from the committed state. `next` is one
//! event, `after` and `outcomes` fold it over a list of events.
//!
//! Each part stands in a file of `specs/` named for it, and the small words of a part with the crate that
//! keeps it: letters in `moesi`, sets of a cache in `cache_sets`, the order of requests in `bus_order`, the
//! mailbox in `mail`, sets of harts in `defer_list`, stamps in `stamp`, who wins in `policy`, counters and the
//! watch in `pair_table`, the instruction in `rv_alu` and its step on plain memory in `rv_flat`. No machine runs
//! by these definitions: its code is proved to answer as they do. The functions of this crate do nothing; each
//! says, as its contract, what the definitions come to.
//!
//! The ideas are those of R. Rajwar and J. R. Goodman, 'Speculative Lock Elision', MICRO 2001, and
//! 'Transactional Lock-Free Execution of Lock-Based Programs', ASPLOS 2002; the rules are this project's profile.
#![tactic(auto)]

mod theorems;

pub use theorems::{
    bus_events_are_told_once, commits_in_serial_order, events_take_effect, idle_changes_nothing,
    losers_are_restored, outcomes_come_by_their_rules, plain_stays_plain, stampless_stays_silent,
    steps_are_deeds,
};
