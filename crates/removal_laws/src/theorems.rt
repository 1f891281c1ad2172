ghost use Rattle.removal_laws.specs.Laws.{
  AttemptsAreCurrent,
  FactsHoldThroughout,
  HeadIsServed,
  LaterAttemptsAreLater,
  LaterThanDeferredHeads,
  LaterThanWinners,
  LeastEndsItsOwnSection,
  LeastStampIsNotRetained,
  LeastStampNeverLoses,
  LosersLoseToEarlier,
  StampsAreDistinct,
  StampsAreKept,
};

/// In every state that can be reached, an open attempt is its hart's own, and its clock is the one that the hart has now.
pub fn attempts_are_current()
    ensures { AttemptsAreCurrent }
{}

/// In every state that can be reached, no two harts have open attempts with the same stamp.
#[tactic(auto, using(crate::proofs::Laws::Attempts::stamps_are_distinct))]
pub fn stamps_are_distinct()
    ensures { StampsAreDistinct }
{}

/// A hart keeps the stamp of its attempt until that closes, by a commit or by a rollback of its own, over any
/// number of sections that it loses. This is said of any state and any mode.
#[tactic(auto, using(crate::proofs::Laws::Clocks::stamps_are_kept))]
pub fn stamps_are_kept()
    ensures { StampsAreKept }
{}

/// In lock removal, once an attempt of a hart has closed, each later one has a greater clock: greater than that of
/// each earlier attempt, than the hart's own clock and than the greatest clock that it had seen, at any time before
/// the close.
#[tactic(auto, using(crate::proofs::Laws::Clocks::later_attempts_are_later))]
pub fn later_attempts_are_later()
    ensures { LaterAttemptsAreLater }
{}

/// In lock removal, once an attempt of a hart has closed, each later one has a greater clock than the stamp of each
/// hart that the hart had lost to before.
pub fn later_than_winners()
    ensures { LaterThanWinners }
{}

/// In lock removal, once an attempt of a hart has closed, each later one has a greater clock than the stamp of each
/// head of a line that a section of the hart had retained.
#[tactic(auto, using(crate::proofs::Laws::Promises::later_than_deferred_heads))]
pub fn later_than_deferred_heads()
    ensures { LaterThanDeferredHeads }
{}

/// In lock removal, in every state that can be reached, the facts of lock removal hold of each line: queues are chained
/// by markers, what a hart was told goes up its chain, and no section that retains a line has a greater stamp than the
/// head or than an origin that its hart was told of.
#[tactic(auto, using(crate::proofs::Laws::Throughout::facts_hold_throughout))]
pub fn facts_hold_throughout()
    ensures { FactsHoldThroughout }
{}

/// In lock removal, where an event names a winner over a hart, that winner has an ordered request as the event ends,
/// with a stamp less than that of the loser's open attempt, and the loser has seen its clock.
#[tactic(auto, using(crate::proofs::Laws::Beating::losers_lose_to_earlier))]
pub fn losers_lose_to_earlier()
    ensures { LosersLoseToEarlier }
{}

/// In lock removal, a hart whose open attempt has the least stamp of all loses its section to nobody.
#[tactic(auto, using(crate::proofs::Laws::Promises::least_stamp_never_loses))]
pub fn least_stamp_never_loses()
    ensures { LeastStampNeverLoses }
{}

/// In lock removal, from a program with as many harts as its configuration has, where that is in range: an event that
/// ends the section of a hart whose open attempt has the least stamp of all is that hart's own step, by which the
/// section commits or the hart rolls it back.
pub fn least_ends_its_own_section()
    ensures { LeastEndsItsOwnSection }
{}

/// In lock removal, let a hart wait for a line with a stamp less than that of each other hart's live section. Where no
/// mailbox of a hart that waits for the line has a marker, and none the probe of an origin that waits for it, no live
/// section retains the line.
#[tactic(auto, using(crate::proofs::Laws::Climbing::least_stamp_is_not_retained))]
pub fn least_stamp_is_not_retained()
    ensures { LeastStampIsNotRetained }
{}

/// In the same states, a serve of the line's head is `Served`, unless it is `Blocked` as `Locked` by a hart without a
/// live section that holds the line.
#[tactic(auto, using(crate::proofs::Laws::Promises::head_is_served))]
pub fn head_is_served()
    ensures { HeadIsServed }
{}
