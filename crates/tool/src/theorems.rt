//! What holds of answers, apart from any code. Each law is the contract of a function that does
//! nothing.

ghost use Rattle.tool.specs.Laws.{ReplayRepeatsRun};

/// A replay of the trace that a run wrote, on the image that it ran, puts the same bytes and ends
/// with the same status, where both tell their times or neither does. It never finds another outcome than the
/// recorded one.
pub fn replay_repeats_run()
    ensures { ReplayRepeatsRun }
{}
