//! What a run says of itself.
//!
//! It stands on `machine`, the timelines of `step_back`, the tallies of `chronicle`, the tables of `timetable`
//! and the sinks of `el_io`, and no call of it takes memory. The text is the word `report_of` of
//! `specs/Text.antt`, to be held beside a printed report: a list of lines, each a list of words. It is put word
//! by word, with the tallies and the length of the serial order that the history keeps.
//! The lines of units and losses are `times_text` of `specs/TimesText.antt`. Those of one place of a run, and of
//! the places at which a hart comes to a pc, are `place_of` and `found_text` of `specs/PlaceText.antt`.
//!
//! Where a doc comment names no other source, its rule is this project's profile.
#![tactic(auto)]

mod places;
mod report;
mod times;
mod word;

pub use places::{write_found, write_place};
pub use report::write_report;
pub use times::write_times;
pub use word::{Word, put_line};

#[cfg(test)]
mod tests;
