ghost use Rattle.section_view.specs.ArmedLaws.{
  ArmedSectionsBegin,
  ArmedSectionsComeTo,
  ArmedSectionsElide,
  ArmedSectionsGoOn,
  ConditionalsAct,
  KeptArmedRunsSurvive,
  ReservesAct,
};
ghost use Rattle.section_view.specs.Laws.{
  CommittedIsOfItsProgram,
  KeptRunsSurvive,
  MarksStay,
  ReleasedViewsAreTold,
  ReleasesStoreTheirWord,
  SectionsBegin,
  SectionsCommit,
  SectionsComeTo,
  SectionsDoAsShown,
  SectionsGoOn,
  SectionsShowTheirBytes,
  SwapsAct,
};

/// Where a running hart comes to a swap that does not trap, the view after the swap and a hold of nothing keep the run
/// of the section that begins there, of one instruction.
pub fn sections_begin()
    ensures { SectionsBegin }
{}

/// The action of a swap that comes next has the register, the word and the value that its instruction names.
pub fn swaps_act()
    ensures { SwapsAct }
{}

/// Each byte of memory that a section shows is its new value's in the lock word; else the held one; else the committed
/// one.
pub fn sections_show_their_bytes()
    ensures { SectionsShowTheirBytes }
{}

/// The instruction that comes next in a section, its action and what it touches are those that the kept view comes to
/// in what is committed: a covered run changes no code and appends nothing to the output.
pub fn sections_come_to()
    ensures { SectionsComeTo }
{}

/// That action, carried out over the held bytes and the new value of the lock word, does what the definition says.
/// The bytes under these need be the committed ones only where the action touches memory outside of the lock word.
pub fn sections_do_as_shown()
    ensures { SectionsDoAsShown }
{}

/// After a covered instruction the view after it, and the hold with what it has stored, keep the run with one
/// instruction more. If each held line had the write bit, each has it still.
pub fn sections_go_on()
    ensures { SectionsGoOn }
{}

/// Held lines have the write bit in a cache that has each write bit of the former one too.
pub fn marks_stay()
    ensures { MarksStay }
{}

/// The same view and hold keep a section's run after a change beside its hart, as another hart's event makes one:
/// nothing on a line with a bit, and of the hart's view nothing but the reservation.
pub fn kept_runs_survive()
    ensures { KeptRunsSurvive }
{}

/// A release stores the old value in the whole lock word, or swaps it into it.
pub fn releases_store_their_word()
    ensures { ReleasesStoreTheirWord }
{}

/// At its release a section takes effect. Its hart's view is that after the release, over any bytes, since all that
/// it may load is the lock word. Memory has the held bytes over the committed ones; the lock word is as it was, since
/// the release puts the old value back, for which memory must be bytes. Each other hart's view is as it was, but for a
/// reservation of a word on the lock word's line or a held one.
pub fn sections_commit()
    ensures { SectionsCommit }
{}

/// The view after a release is told by its instruction alone, with the new value as the word that a swap finds. It
/// does not depend on where memory lies, nor on the room of the output.
pub fn released_views_are_told()
    ensures { ReleasedViewsAreTold }
{}

/// In every state that can be reached, what is committed lies where its program says, with the program's code, size and
/// number of harts, and is bytes where the program's memory is: what the laws here ask of it, and that it begins with a
/// line where the program does.
pub fn committed_is_of_its_program()
    ensures { CommittedIsOfItsProgram }
{}

/// Where a running hart comes to an LR, the view after it, with the value of its word, keeps the run of the section that
/// arms there, of one instruction.
pub fn armed_sections_begin()
    ensures { ArmedSectionsBegin }
{}

/// The action of an LR that comes next reserves its word, and has the register that its instruction names.
pub fn reserves_act()
    ensures { ReservesAct }
{}

/// The instruction that comes next in an armed section, its action and what it touches are those that the kept view comes
/// to in what is committed.
pub fn armed_sections_come_to()
    ensures { ArmedSectionsComeTo }
{}

/// After a quiet instruction the view after its action keeps the run with one instruction more. The action may be carried
/// out over any bytes, since it touches no memory.
pub fn armed_sections_go_on()
    ensures { ArmedSectionsGoOn }
{}

/// The action of an SC that comes next, and succeeds, has the register, the word and the value that its instruction names.
pub fn conditionals_act()
    ensures { ConditionalsAct }
{}

/// At an SC that succeeds on its word an armed section becomes a live one: the SC finds the value that is kept, and the
/// view after it and a hold of nothing keep the run of the live section, of one instruction more.
pub fn armed_sections_elide()
    ensures { ArmedSectionsElide }
{}

/// The same view and value keep an armed section's run after a change beside its hart, as another hart's event makes one
/// that does not let it go.
pub fn kept_armed_runs_survive()
    ensures { KeptArmedRunsSurvive }
{}
