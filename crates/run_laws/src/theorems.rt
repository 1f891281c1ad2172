ghost use Rattle.run_laws.specs.Laws.{
  ArmedRunsKeepAllButAView,
  ArmedRunsSurvive,
  ArmedSectionsRunCovered,
  CoveredRunsShowTheirOwn,
  CoveredRunsSurvive,
  LettingGoChangesNothingBeside,
  LettingGoLeavesMemory,
  LiveSectionsRunCovered,
  LoadedProgramsAreBytes,
  OtherHartsChangeNothingCovered,
  OtherHartsChangeNothingShown,
  ReleasesCommit,
  SectionsSurviveOtherHarts,
};

/// The private run of a live section depends on what its bits cover alone: after any change of what is committed that
/// leaves the bytes on lines with a bit, and the view of the hart but for its reservation, it is covered as before,
/// ends in the same view, and shows the same at each byte that is the same in both committed states.
pub fn covered_runs_survive()
    ensures { CoveredRunsSurvive }
{}

/// So does the private run of an armed section, whose one bit is on the line of its word: after any such change it ends
/// in the same view, and shows the same at each byte that is the same in both committed states.
pub fn armed_runs_survive()
    ensures { ArmedRunsSurvive }
{}

/// The private run of an armed section leaves all but its own hart's view as it was: memory, code, output, how many
/// harts there are, and the view of each other hart with its reservation. None of its instructions stores or calls.
pub fn armed_runs_keep_all_but_a_view()
    ensures { ArmedRunsKeepAllButAView }
{}

/// The private run of a live section shows its new value in the lock word. Outside of that word and of the lines with
/// its write bit it shows what is committed.
pub fn covered_runs_show_their_own()
    ensures { CoveredRunsShowTheirOwn }
{}

/// From a program whose memory is bytes, in every state that can be reached, the private run of each live section is
/// covered. Its acquire is the swap that comes next in what is committed, or an SC behind an LR of the word and quiet
/// instructions; it finds the old value in the lock word, as it is committed now, and the word's line has the read bit.
/// Each later instruction neither calls nor stops its hart, stores to no byte of the lock word, and has the write bit of
/// what it writes and a bit of what it reads.
pub fn live_sections_run_covered()
    ensures { LiveSectionsRunCovered }
{}

/// From such a program, in every state that can be reached, the private run of each armed section begins with an LR of
/// its word, on a line with the read bit; each later instruction touches no memory, is no SC and neither calls nor stops
/// its hart.
pub fn armed_sections_run_covered()
    ensures { ArmedSectionsRunCovered }
{}

/// From such a program, in every state that can be reached, whichever head lets armed sections go, it changes no byte on
/// a line with a bit of a hart that it lets not go, and of that hart's view nothing but the reservation.
pub fn letting_go_changes_nothing_beside()
    ensures { LettingGoChangesNothingBeside }
{}

/// And memory lies where it did, with the bytes that it had.
pub fn letting_go_leaves_memory()
    ensures { LettingGoLeavesMemory }
{}

/// From a program whose memory is bytes, in every state that can be reached, an event of another hart that lets not
/// this one go changes no byte on a line with a bit of this hart, and of its view nothing but the reservation. A section
/// that commits puts the old value of its lock word back, so the word is as it was.
pub fn other_harts_change_nothing_covered()
    ensures { OtherHartsChangeNothingCovered }
{}

/// From a program whose memory is bytes, in every state that can be reached, an event of another hart changes nothing
/// that a section shows which is live after it: its private run ends in the same view, every byte that is the same in
/// both committed states is the same in both shown ones, and the section is as it was, with its old value.
pub fn other_harts_change_nothing_shown()
    ensures { OtherHartsChangeNothingShown }
{}

/// The same of any events of other harts, one after another: a section that is live after them all is as it was, and
/// its private run ends in the same view and shows the same at each byte that is the same in what was committed before
/// them and in what is after them.
pub fn sections_survive_other_harts()
    ensures { SectionsSurviveOtherHarts }
{}

/// In every state that can be reached, a step of a hart with a live section that is not at its longest, which waits
/// for no request and whose next instruction is its release, commits: its instructions take effect at once, the
/// release with them.
pub fn releases_commit()
    ensures { ReleasesCommit }
{}

/// Where a file is bytes, so is the memory of the program that it loads: what the laws here ask of a program holds of
/// each that an image gives.
pub fn loaded_programs_are_bytes()
    ensures { LoadedProgramsAreBytes }
{}
