ghost use Rattle.cached_step.specs.Laws.{
  CachedBytesEqualMemory,
  CachesTellMemoryAfter,
  PermittedStepsAreFlat,
  RunsKeepTheForm,
  StepsShowTheirRule,
  TouchedLinesAreThere,
  UnmarkedCachesHaveRoom,
};

/// Where caches and main memory tell the bytes of memory, and the letter of the line that an action touches
/// permits it, the bytes that it touches are in the hart's cache those of memory.
#[tactic(auto, using(crate::proofs::Laws::Told::bytes_agree))]
pub fn cached_bytes_equal_memory()
    ensures { CachedBytesEqualMemory }
{}

/// Then the hart's next instruction does over its cache what it does on plain shared memory.
#[tactic(auto, using(crate::proofs::Laws::Told::performs_flat))]
pub fn permitted_steps_are_flat()
    ensures { PermittedStepsAreFlat }
{}

/// After an action ran over a hart's cache, caches and main memory tell the bytes that memory has after it.
pub fn caches_tell_memory_after()
    ensures { CachesTellMemoryAfter }
{}

/// The line that an action touches lies in memory.
#[tactic(auto, using(crate::proofs::Laws::Told::touched_there))]
pub fn touched_lines_are_there()
    ensures { TouchedLinesAreThere }
{}

/// A cache stays well formed as an action runs over it, and has marks where it had them.
pub fn runs_keep_the_form()
    ensures { RunsKeepTheForm }
{}

/// A cache without marks has room for any line.
#[tactic(auto, using(residency::proofs::Laws::Rooms::room_without_marks))]
pub fn unmarked_caches_have_room()
    ensures { UnmarkedCachesHaveRoom }
{}

/// A hart's next instruction ends over its cache as the definition's rule says for what it touches: it needs the
/// line that the rule misses, and nothing where the rule runs it.
pub fn steps_show_their_rule()
    ensures { StepsShowTheirRule }
{}
