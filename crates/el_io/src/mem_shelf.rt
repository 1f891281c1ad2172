ghost use Rattle.std.specs.Prelude.{◌≡◌, ℕ, List, [], length, Some, IfOk, OnOk, OnErr};
ghost use Rattle.el_io.specs.Files.{file_given};
ghost use Rattle.el_io.specs.MemShelf.{file as file_told, contents as contents_told, plan as plan_of, failed_calls, SameFiles, OneFileWritten};
ghost use Rattle.el_io.specs.MemShelf.{ReadAnswers, WriteAnswers, Counts};
ghost use Rattle.el_io.specs.Shelf.{KeepsOthers, Records};

use crate::failure_list::FailureList;
use crate::failure_plan::FailurePlan;
use crate::files::{self, Files};
use crate::shelf::{Call, Shelf, ShelfFault};
use el_base::NoMemory;
use std::alloc::Global;

/// A shelf in memory that fails at the calls whose numbers it was given, counted from 1 over reads
/// and writes, and where a name is read that has no file.
#[derive(Drop)]
pub struct MemShelf {
    files: Files,
    plan: FailurePlan,
    failures: FailureList,
}

impl MemShelf {
    /// A shelf that has the contents at each place under the name at that place, and fails at the
    /// calls whose numbers are listed. Where a name stands twice, the first place counts.
    pub fn make(
        alloc: Global,
        names: &[String],
        contents: &[Vec<u8>],
        failing: &[u32],
    ) -> Result<MemShelf, NoMemory>
        requires same_length { length names.now ≡ length contents.now }
        ensures files_given { IfOk result (λ shelf. (name : List ℕ) →
            file_told shelf name ≡ file_given names.now contents.now name) }
        ensures plan_given { IfOk result (λ shelf.
            plan_of shelf ≡ record { failing = failing.now; calls = 0 }) }
        ensures no_failures { IfOk result (λ shelf. failed_calls shelf ≡ []) }
    {
        Ok(MemShelf {
            files: files::files_of(alloc, names, contents)?,
            plan: FailurePlan::new(alloc, failing)?,
            failures: FailureList::new(alloc),
        })
    }

    /// The bytes of the file of this name, none where there is no such file.
    pub fn contents(&self, name: &str) -> &[u8]
        ensures exact { result.now ≡ contents_told self.now name.now }
    {
        files::find(&self.files, name).unwrap_or(&[])
    }
}

impl Shelf for MemShelf {
    ghost told = { λ shelf. Some (contents_told shelf) };

    ghost failures = { λ shelf. failed_calls shelf };

    fn read(&mut self, alloc: Global, name: &str, limit: u32) -> Result<Vec<u8>, ShelfFault>
        ensures exact { ReadAnswers self.old name.now limit result }
        ensures files_stay { SameFiles self.old self.new }
        ensures counted { Counts result self.old self.new }
        ensures failures_listed { Records result
            (failed_calls self.old) (failed_calls self.new) (Call.Read, name.now) }
    {
        let file = files::find(&self.files, name);
        let Some(bytes) = file.filter(|_| !self.plan.next_fails()) else {
            self.failures.add(alloc, Call::Read, name)?;
            self.plan.count_call();
            return Err(ShelfFault::Failed);
        };
        if bytes.len() > limit as usize {
            self.plan.count_call();
            return Err(ShelfFault::TooBig);
        }
        let copy = Vec::from_slice(alloc, bytes)?;
        self.plan.count_call();
        Ok(copy)
    }

    fn write(&mut self, alloc: Global, name: &str, bytes: &[u8]) -> Result<(), ShelfFault>
        ensures exact { WriteAnswers self.old result }
        ensures written { OnOk result (OneFileWritten self.old self.new name.now bytes.now) }
        ensures others_stay { KeepsOthers (Some (contents_told self.old))
            (Some (contents_told self.new)) name.now }
        ensures files_stay_after_error { OnErr result (SameFiles self.old self.new) }
        ensures counted { Counts result self.old self.new }
        ensures failures_listed { Records result
            (failed_calls self.old) (failed_calls self.new) (Call.Write, name.now) }
    {
        if self.plan.next_fails() {
            self.failures.add(alloc, Call::Write, name)?;
            self.plan.count_call();
            return Err(ShelfFault::Failed);
        }
        files::store(&mut self.files, alloc, name, bytes)?;
        self.plan.count_call();
        Ok(())
    }
}
