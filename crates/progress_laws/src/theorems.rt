ghost use Rattle.progress_laws.specs.Laws.{
  NoSectionRetainsWithoutStamps,
  NoStateIsStuck,
  NoneIsReadyWhereNoneGetsOn,
  ReadyEventGetsOn,
};
ghost use Rattle.progress_laws.specs.LeastStamp.{LineOfLeastStampMovesOn};

/// The ready event of a state is progress.
#[tactic(auto, using(crate::proofs::Ready::ready_event_gets_on))]
pub fn ready_event_gets_on()
    ensures { ReadyEventGetsOn }
{}

/// With at most eight harts there is no ready event exactly where no event of these harts is progress.
pub fn none_is_ready_where_none_gets_on()
    ensures { NoneIsReadyWhereNoneGetsOn }
{}

/// In every state that can be reached in the plain mode or in lock elision, no section retains a line.
#[tactic(auto, using(crate::proofs::WithoutStamps::no_section_retains))]
pub fn no_section_retains_without_stamps()
    ensures { NoSectionRetainsWithoutStamps }
{}

/// In every mode, from a program with as many harts as its configuration has, where that is in range, in every state
/// that can be reached there is a ready event exactly where a hart runs.
pub fn no_state_is_stuck()
    ensures { NoStateIsStuck }
{}

/// In lock removal, in every state that can be reached: where the hart of the least open stamp has an ordered request for
/// a line, and no mailbox has a message about that line, no live section retains the line. A serve of the hart of the
/// line's first request is `Served`, or `Blocked` as `Locked` by a hart that holds the line until its next step, and that
/// step is progress.
///
/// The first request may be another hart's: each that is served leaves the line to the one behind it. The idea is that of
/// R. Rajwar and J. R. Goodman, 'Transactional Lock-Free Execution of Lock-Based Programs', ASPLOS 2002.
pub fn line_of_least_stamp_moves_on()
    ensures { LineOfLeastStampMovesOn }
{}
