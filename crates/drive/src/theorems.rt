//! What the definition of the round robin comes to: the contract of a function that does nothing.

ghost use Rattle.drive.specs.Laws.{OneRoundRobin};

/// The definition of the round robin allows one list of events, from each state and with each number of
/// steps left.
pub fn one_round_robin()
    ensures { OneRoundRobin }
{}
