ghost use Rattle.section_laws.specs.Bounds.{
  CachesAreShaped,
  WaitingLinesHaveRoom,
  WaitingWritesAreSpared,
  WrittenLinesAreFew,
};
ghost use Rattle.section_laws.specs.Laws.{
  ArmedHartsWaitForNothing,
  ArmedSectionsAreShort,
  ArmedSectionsHaveOneReadBit,
  CopiesAreCoherent,
  CountersStayInRange,
  EachHartWaitsForOne,
  NoHartIsLiveAndArmed,
  NoSetHasALineTwice,
  OneOrderedRequestEach,
  OnlyLiveSectionsHaveBits,
  OrderedWritesMeetNoArmedHart,
  RequestsAreNumbered,
  TriesStayBelowFour,
  WrittenLinesAreElsewhereInNoCache,
  WrittenLinesMayBeWritten,
};
ghost use Rattle.section_laws.specs.Messages.{MessagesAreFewerThanHarts, MessagesNameOthersOnce};
ghost use Rattle.section_laws.specs.Sections.{
  BegunSectionsAreAccountedFor,
  NoneBeginsAfterRollback,
  SectionStepsAreOfFiveKinds,
  SerialOrderIsNoLonger,
};

/// In every state that can be reached, a hart without a live or armed section has no access bit.
#[tactic(auto, using(crate::proofs::OnlyInside::only_live_sections_have_bits))]
pub fn only_live_sections_have_bits()
    ensures { OnlyLiveSectionsHaveBits }
{}

/// In every state that can be reached, an armed section has one access bit alone: the read bit of the line of the
/// word that its LR reserved, which is resident.
pub fn armed_sections_have_one_read_bit()
    ensures { ArmedSectionsHaveOneReadBit }
{}

/// Where the configuration is in range, in every state that can be reached an armed section has from 1 to 15
/// instructions, its LR included, and fewer than a section may have.
pub fn armed_sections_are_short()
    ensures { ArmedSectionsAreShort }
{}

/// In every state that can be reached, an armed hart runs, and has no request, no hold and no live section.
pub fn armed_harts_wait_for_nothing()
    ensures { ArmedHartsWaitForNothing }
{}

/// In every state that can be reached, no hart has a live section and an armed one.
#[tactic(auto, using(crate::proofs::Laws::LetGone::no_hart_is_live_and_armed))]
pub fn no_hart_is_live_and_armed()
    ensures { NoHartIsLiveAndArmed }
{}

/// In every state that can be reached, where the first request of a line is to write, no armed hart but the
/// request's own has a bit on that line: all that had one were let go as the request became the first. So a write
/// that is served takes no armed hart's line away.
#[tactic(auto, using(crate::proofs::Laws::LetGone::ordered_writes_meet_no_armed_hart))]
pub fn ordered_writes_meet_no_armed_hart()
    ensures { OrderedWritesMeetNoArmedHart }
{}

/// In every state that can be reached, each hart's count of sections lost in a row is below four. Lock removal does
/// not count them.
#[tactic(auto, using(crate::proofs::TriesLeft::tries_stay_below_four))]
pub fn tries_stay_below_four()
    ensures { TriesStayBelowFour }
{}

/// In every state that can be reached, each hart's predictor has 64 counters, each from 0 to 3.

pub fn counters_stay_in_range()
    ensures { CountersStayInRange }
{}

/// In every state that can be reached, a hart has at most one of a raised request, an ordered request and a hold,
/// and a raised request names its own hart. A hart that holds a line has no live section; one that has stopped has
/// nothing of all that.
#[tactic(auto, using(crate::proofs::Laws::Numbered::each_hart_waits_for_one))]
pub fn each_hart_waits_for_one()
    ensures { EachHartWaitsForOne }
{}

/// In every state that can be reached, no two requests in order are of one hart.
pub fn one_ordered_request_each()
    ensures { OneOrderedRequestEach }
{}

/// From a program with as many harts as its configuration has, where that is in range, in every state that can be
/// reached there are at most eight harts, and each request is of a hart from 0 to 7.
pub fn requests_are_numbered()
    ensures { RequestsAreNumbered }
{}

/// In every state that can be reached, a step of a hart with a live section waits for its request, misses a line,
/// buffers an instruction, commits or rolls back.
#[tactic(auto, using(crate::proofs::Laws::SectionSteps::section_steps_are_of_five_kinds))]
pub fn section_steps_are_of_five_kinds()
    ensures { SectionStepsAreOfFiveKinds }
{}

/// After a hart has rolled its section back itself, it begins no section until it has run a candidate for an
/// acquire outside of a section, whatever the events.
#[tactic(auto, using(crate::proofs::Laws::SectionSteps::none_begins_after_rollback))]
pub fn none_begins_after_rollback()
    ensures { NoneBeginsAfterRollback }
{}

/// From a program with as many harts as its configuration has, where that is in range, the sections that a hart
/// began are as many as those that it committed, those that it rolled back, and the events with it among their
/// losers, and one more where it has a live section.
pub fn begun_sections_are_accounted_for()
    ensures { BegunSectionsAreAccountedFor }
{}

/// In every state that can be reached, a line that is M or E in one hart's cache is in no other, and no line is O
/// in two.
pub fn copies_are_coherent()
    ensures { CopiesAreCoherent }
{}

/// In every state that can be reached, a line that a live section has written is M or E in its hart's cache.
pub fn written_lines_may_be_written()
    ensures { WrittenLinesMayBeWritten }
{}

/// In every state that can be reached, a line that a live section has written is in no other hart's cache.
pub fn written_lines_are_elsewhere_in_no_cache()
    ensures { WrittenLinesAreElsewhereInNoCache }
{}

/// In every state that can be reached, no set of a cache has a line twice.
pub fn no_set_has_a_line_twice()
    ensures { NoSetHasALineTwice }
{}

/// From a program with as many harts as its configuration has, where that is in range, in every state that can be
/// reached each hart's cache has as many sets as configured, no set has more lines than ways, none has a line twice,
/// and a line is in the set of its number.
pub fn caches_are_shaped()
    ensures { CachesAreShaped }
{}

/// In the same states, the line of each request that is raised or ordered has room in its hart's cache, until it is
/// served: it is there, or its set has fewer lines than ways, or a line without access bits.
pub fn waiting_lines_have_room()
    ensures { WaitingLinesHaveRoom }
{}

/// In the same states, no live section has written more lines than configured.
pub fn written_lines_are_few()
    ensures { WrittenLinesAreFew }
{}

/// In the same states, where a hart waits to write a line that its section has not written, it has written fewer lines
/// than configured, so that it may write this one too.
pub fn waiting_writes_are_spared()
    ensures { WaitingWritesAreSpared }
{}

/// In every state that can be reached, no mailbox has a message twice, no hart is listed twice among the origins that a
/// hart was told of or among those before it, and each message and each listed hart is another hart of the machine.
pub fn messages_name_others_once()
    ensures { MessagesNameOthersOnce }
{}

/// In every state that can be reached, a hart has fewer markers in its mailbox than the machine has harts, fewer
/// probes, fewer origins that it was told of, and fewer harts before it: at most seven of each, where the configuration
/// is in range.
pub fn messages_are_fewer_than_harts()
    ensures { MessagesAreFewerThanHarts }
{}

/// The serial order of a history is no longer than the history: no more instructions take effect than there were
/// events.
pub fn serial_order_is_no_longer()
    ensures { SerialOrderIsNoLonger }
{}
