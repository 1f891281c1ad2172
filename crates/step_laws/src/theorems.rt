ghost use Rattle.step_laws.specs.Clocks.{ClocksAreFew};
ghost use Rattle.step_laws.specs.Counts.{SectionsAreShort, WatchesAreShort};
ghost use Rattle.step_laws.specs.Frames.{BusEventsKeep, StepsKeepOthers};
ghost use Rattle.step_laws.specs.LettingGo.{BusEventsLetHartsGo};
ghost use Rattle.step_laws.specs.Losing.{OnlyLiveSectionsLose, WhatEndsASection};
ghost use Rattle.step_laws.specs.OwnSteps.{OwnCommits, OwnDeeds, OwnOutcomes, OwnRollbacks};
ghost use Rattle.step_laws.specs.Survivors.{SurvivorsKeepBits, SurvivorsKeepWhatTheyShow};

/// In every state that can be reached, no clock is greater than the number of the events: no hart's own clock, nor
/// the greatest that it has seen, nor that of its open attempt or of the stamp of a request that is raised or
/// ordered.
#[tactic(auto, using(crate::proofs::Laws::Clocks::clocks_are_few))]
pub fn clocks_are_few()
    ensures { ClocksAreFew }
{}

/// With a configuration in range, in every state that can be reached, a watch has counted at least one instruction,
/// and fewer than a section may have.
#[tactic(auto, using(crate::proofs::Laws::Short::watches_are_short))]
pub fn watches_are_short()
    ensures { WatchesAreShort }
{}

/// With a configuration in range, in every state that can be reached, a live section has run at least one
/// instruction, and no more than it may have.
#[tactic(auto, using(crate::proofs::Laws::Short::sections_are_short))]
pub fn sections_are_short()
    ensures { SectionsAreShort }
{}

/// From a program with as many harts as its configuration has, where that is in range, a hart that an event names
/// among its losers had a live section, and has none after it. The event is no step, and the winner is a hart from
/// 0 to 7.
#[tactic(auto, using(crate::proofs::Laws::Losing::only_live_sections_lose))]
pub fn only_live_sections_lose()
    ensures { OnlyLiveSectionsLose }
{}

/// An event that is no step commits the instructions of the harts that it lets go and nothing else, and leaves each
/// hart's predictor, the configuration, and how many harts there are. This is said of any state.
#[tactic(auto, using(crate::proofs::Laws::Frames::bus_events_keep))]
pub fn bus_events_keep()
    ensures { BusEventsKeep }
{}

/// From a program whose memory is bytes, with as many harts as its configuration has, where that is in range, an event
/// that is no step lets go the harts that its outcome tells. Of those the armed section is over, the view is the one
/// that its private run has come to, and the pc of its LR is kept. Memory, code and output stay, and so do each other
/// hart's view with its reservation, its armed section and the pc of its last LR.
pub fn bus_events_let_harts_go()
    ensures { BusEventsLetHartsGo }
{}

/// A step leaves each other hart as it was, the order of requests, the configuration, and how many harts there are.
/// This is said of any state.
#[tactic(auto, using(crate::proofs::Laws::Frames::steps_keep_others))]
pub fn steps_keep_others()
    ensures { StepsKeepOthers }
{}

/// In every state that can be reached, a section that is live after an event of another hart, or one of the bus, is
/// the one that was live before it, and has every access bit that it had.
#[tactic(auto, using(crate::proofs::Laws::Survivors::survivors_keep_bits))]
pub fn survivors_keep_bits()
    ensures { SurvivorsKeepBits }
{}

/// From a program whose memory is bytes, in every state that can be reached: a section that is live after such an
/// event is the same as before with its bits, its private run is covered before and after, what is committed has
/// changed beside its hart alone, and it shows the same view, and the same of each byte whose
/// committed value stays.
pub fn survivors_keep_what_they_show()
    ensures { SurvivorsKeepWhatTheyShow }
{}

/// In every state that can be reached, a step is one deed of its hart: the hart stands after it as the deed says,
/// and what is committed likewise. What a step leaves as it was is told by `steps_keep_others`.
#[tactic(auto, using(crate::proofs::OwnSteps::own_deeds))]
pub fn own_deeds()
    ensures { OwnDeeds }
{}

/// In every state that can be reached, the outcome of a step tells which deed its hart did, with all that the deed
/// says.
#[tactic(auto, using(crate::proofs::OwnSteps::own_outcomes))]
pub fn own_outcomes()
    ensures { OwnOutcomes }
{}

/// In every state that can be reached, an event that comes out as `Committed` is a step of a hart with a live
/// section: so many instructions take effect at once, one more than the section had, and the hart is out of the
/// section.
pub fn own_commits()
    ensures { OwnCommits }
{}

/// In every state that can be reached, an event that comes out as `RolledBack` is a step of a hart with a live
/// section: nothing takes effect, no access bit is left, and the hart is out of the section.
pub fn own_rollbacks()
    ensures { OwnRollbacks }
{}

/// From a program with as many harts as its configuration has, where that is in range: an event that ends a section
/// is a step of its own hart, by which the section commits or the hart rolls it back, or names a winner over the
/// hart.
#[tactic(auto, using(crate::proofs::Laws::Losing::what_ends_a_section))]
pub fn what_ends_a_section()
    ensures { WhatEndsASection }
{}
