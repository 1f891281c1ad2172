//! Laws of what is told. Each is the contract of a function that does nothing.

ghost use Rattle.lab.specs.Counts.{SectionsAreThoseOfTheReport};
ghost use Rattle.lab.specs.Locks.{RowsSumToTheReport};
ghost use Rattle.lab.specs.Releases.{PartsSumToAll};

/// Over the sections of a run, those that began, committed, were lost, and were rolled back by each cause, and the
/// instructions that took effect, are of each hart the numbers of its line in the report.
#[tactic(auto, using(crate::proofs::Counting::sections_are_told))]
pub fn sections_are_those_of_the_report()
    ensures { SectionsAreThoseOfTheReport }
{}

/// Over the rows of all acquires of a run, each number sums to that of the report's lines of all harts.
#[tactic(auto, using(crate::proofs::Classes::rows_sum))]
pub fn rows_sum_to_the_report()
    ensures { RowsSumToTheReport }
{}

/// Of each acquire, the rows of the sections that take the lock and of those that give it back sum to that of all.
#[tactic(auto, using(crate::proofs::Parting::parts_sum))]
pub fn parts_sum_to_all()
    ensures { PartsSumToAll }
{}
