ghost use Rattle.std.specs.Prelude.{◌≡◌, ℕ, List, [], length, Some, IfOk};
ghost use Rattle.std.specs.Option.{unwrap_or};
ghost use Rattle.el_io.specs.Files.{file_given};
ghost use Rattle.el_io.specs.SureShelf.{contents as contents_told};

use crate::files::{self, Files};
use crate::shelf::{Call, Shelf, ShelfFault};
use el_base::NoMemory;
use std::alloc::Global;

/// A shelf in memory that never fails. A name without a file reads as an empty file.
#[derive(Drop)]
pub struct SureShelf {
    files: Files,
}

impl SureShelf {
    /// A shelf that has the contents at each place under the name at that place. Where a name
    /// stands twice, the first place counts.
    pub fn make(
        alloc: Global,
        names: &[String],
        contents: &[Vec<u8>],
    ) -> Result<SureShelf, NoMemory>
        requires same_length { length names.now ≡ length contents.now }
        ensures exact { IfOk result (λ shelf. (name : List ℕ) →
            contents_told shelf name ≡ unwrap_or (file_given names.now contents.now name) []) }
    {
        Ok(SureShelf {
            files: files::files_of(alloc, names, contents)?,
        })
    }

    /// The bytes of the file of this name, none where there is no such file.
    pub fn contents(&self, name: &str) -> &[u8]
        ensures exact { result.now ≡ contents_told self.now name.now }
    {
        files::find(&self.files, name).unwrap_or(&[])
    }
}

impl Shelf for SureShelf {
    ghost told = { λ shelf. Some (contents_told shelf) };

    ghost failures = { λ _. [] };

    fn read(&mut self, alloc: Global, name: &str, limit: u32) -> Result<Vec<u8>, ShelfFault> {
        let bytes = self.contents(name);
        if bytes.len() > limit as usize {
            return Err(ShelfFault::TooBig);
        }
        Ok(Vec::from_slice(alloc, bytes)?)
    }

    fn write(&mut self, alloc: Global, name: &str, bytes: &[u8]) -> Result<(), ShelfFault> {
        files::store(&mut self.files, alloc, name, bytes)?;
        Ok(())
    }
}
