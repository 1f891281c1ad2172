ghost use Rattle.el_model.specs.Laws.{
  BusEventsAreToldOnce,
  CommitsInSerialOrder,
  EventsTakeEffect,
  IdleChangesNothing,
  LosersAreRestored,
  OutcomesComeByTheirRules,
  PlainStaysPlain,
  StamplessStaysSilent,
  StepsAreDeeds,
};

/// Whatever the events, in every mode, the committed state is that of one run of the program on plain
/// shared memory, in the serial order of the history of these events.
#[tactic(auto, using(crate::proofs::Laws::Folds::serial_run), unfolding(crate::specs::State::begin))]
pub fn commits_in_serial_order()
    ensures { CommitsInSerialOrder }
{}

/// What is committed after an event is what the instructions that take effect in it leave of what was committed.
/// This is said of any state.
#[tactic(auto, using(crate::proofs::Turns::events_take_effect))]
pub fn events_take_effect()
    ensures { EventsTakeEffect }
{}

/// Each outcome, with all that it tells, comes exactly where its rule says.
#[tactic(auto, using(crate::proofs::Laws::Coming::by_their_rules))]
pub fn outcomes_come_by_their_rules()
    ensures { OutcomesComeByTheirRules }
{}

/// An event that had nothing to do has changed nothing.
#[tactic(auto, using(crate::proofs::Laws::Coming::idle_is_still))]
pub fn idle_changes_nothing()
    ensures { IdleChangesNothing }
{}

/// Where an event of the bus names no winner for a hart, that hart's section, tries and fallback flag are
/// as they were; where it names one, they are those after a loss.
#[tactic(auto, using(crate::proofs::Laws::Restoring::losers_restored))]
pub fn losers_are_restored()
    ensures { LosersAreRestored }
{}

/// A step is one deed of its hart: the hart becomes what the deed says, what is committed likewise, and
/// nothing else changes. The deed is told with all that its rule asks for.
#[tactic(auto, using(crate::proofs::Laws::FromStart::steps_are_deeds))]
pub fn steps_are_deeds()
    ensures { StepsAreDeeds }
{}

/// An event of the bus is told once: how it starts, and what becomes of each hart from there, one change after
/// another. A message is told with its sender and why it is sent, a loss with the request that wins; the state is
/// the one in which the head was faced, and what is committed stays.
#[tactic(auto, using(crate::proofs::Laws::BusEvents::bus_events_are_told_once))]
pub fn bus_events_are_told_once()
    ensures { BusEventsAreToldOnce }
{}

/// In the modes without stamps nothing of messages and attempts ever arises.
#[tactic(auto, using(crate::proofs::Laws::FromStart::stampless_silent))]
pub fn stampless_stays_silent()
    ensures { StamplessStaysSilent }
{}

/// In the plain mode nothing of sections, access bits and watches ever arises either.
#[tactic(auto, using(crate::proofs::Laws::FromStart::plain_plain))]
pub fn plain_stays_plain()
    ensures { PlainStaysPlain }
{}
