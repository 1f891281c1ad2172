//! Where a replay differs from what its trace records.
ghost use Rattle.std.specs.Prelude.{◌≡◌, IfOk, string_bytes};
ghost use Rattle.tool.specs.Messages.{differs_line};

use el_base::Outcome;
use std::alloc::{AllocError, Global};
use trace_file::outcome_spelling;

/// The first event of a replay of which another outcome came than the recorded one.
#[derive(Clone, Copy, Debug, PartialEq, Eq)]
pub(crate) struct Difference {
    /// The place of the event in the trace, counted from 0.
    pub(crate) place: u32,
    pub(crate) recorded: Outcome,
    pub(crate) found: Outcome,
}

impl Difference {
    /// The line that says so, with its newline: both outcomes as they are spelled in a trace, in hexadecimal.
    #[tactic(auto, unfolding(crate::specs::Messages::differs_line))]
    pub(crate) fn line(self, alloc: Global) -> Result<String, AllocError>
        ensures { IfOk result (λ line. string_bytes line ≡ differs_line self) }
    {
        let place = self.place;
        let recorded = hex::encode(alloc, outcome_spelling(self.recorded).as_bytes())?;
        let found = hex::encode(alloc, outcome_spelling(self.found).as_bytes())?;
        let mut line = format!(in alloc; "replay differs at event {place}: recorded ")?;
        line.push_str(&recorded)?;
        line.push_str(" found ")?;
        line.push_str(&found)?;
        line.push_str("\n")?;
        Ok(line)
    }
}
