ghost use Rattle.std.specs.Prelude.{◌≡◌, ◌<◌, ◌≤◌, ◌+◌, [], None, length, IfOk, IfSome};
ghost use Rattle.el_io.specs.Reading.{TakesAtMost};

use crate::failure_list::FailureList;
use crate::shelf::{Call, Shelf, ShelfFault};
use std::alloc::Global;
use std::fs;
use std::io::Read;
use std::rt::Files;

/// How many bytes one read of a file asks for at most.
const PIECE: usize = 4096;

/// A shelf over the files of the system; a name is a path. It tells no contents.
///
/// What a real file holds is trusted. A call is listed as failed before it is made, and taken off
/// the list again where it did not fail, so that each failing call can be listed.
#[derive(Drop)]
pub struct FolderShelf<R: Files> {
    files: R,
    failures: FailureList,
}

impl<R: Files> FolderShelf<R> {
    /// A shelf over these files that no call has been made of. It takes no memory.
    pub fn new(files: R, alloc: Global) -> FolderShelf<R>
        ensures no_failures { ⟦<FolderShelf<R> as Shelf>⟧.failures result ≡ [] }
    {
        FolderShelf {
            files,
            failures: FailureList::new(alloc),
        }
    }
}

impl<R: Files> Shelf for FolderShelf<R> {
    ghost told = { λ _. None };

    ghost failures = { λ shelf. shelf.failures };

    fn read(&mut self, alloc: Global, name: &str, limit: u32) -> Result<Vec<u8>, ShelfFault> {
        self.failures.add(alloc, Call::Read, name)?;
        match read_file(&self.files, alloc, name, limit) {
            Err(ShelfFault::Failed) => Err(ShelfFault::Failed),
            answer => {
                self.failures.take_back();
                answer
            }
        }
    }

    fn write(&mut self, alloc: Global, name: &str, bytes: &[u8]) -> Result<(), ShelfFault> {
        self.failures.add(alloc, Call::Write, name)?;
        if fs::write(&self.files, name, bytes).is_err() {
            return Err(ShelfFault::Failed);
        }
        self.failures.take_back();
        Ok(())
    }
}

/// The bytes of a file, of which it reads at most one more than the limit.
fn read_file<R: Files>(
    files: &R,
    alloc: Global,
    name: &str,
    limit: u32,
) -> Result<Vec<u8>, ShelfFault>
    ensures within_limit { IfOk result (λ bytes. length bytes.items ≤ limit) }
{
    let mut file = fs::open(files, name).map_err(|_| ShelfFault::Failed)?;
    read_up_to(&mut file, alloc, limit)
}

/// All that a reader has left, if it is at most the limit, and else `TooBig`. It reads at most one
/// byte more than the limit, and fails where the reader does.
#[tactic(auto, using(crate::proofs::Reading::takes_at_most))]
fn read_up_to<R: Read>(reader: &mut R, alloc: Global, limit: u32) -> Result<Vec<u8>, ShelfFault>
    ensures within_limit { IfOk result (λ bytes. length bytes.items ≤ limit) }
    ensures all_that_is_left { IfOk result (λ bytes.
        IfSome (R.remaining reader.old) (λ left. bytes.items ≡ left)) }
    ensures too_big_only_over_limit { result ≡ Err ShelfFault.TooBig →
        IfSome (R.remaining reader.old) (λ left. limit < length left) }
    ensures stops { TakesAtMost (limit + 1) (R.remaining reader.old) (R.remaining reader.new) }
{
    let mut bytes = Vec::new(alloc);
    let mut piece = [0; PIECE];
    let most = limit as usize + 1;
    while bytes.len() < most {
        let wanted = PIECE.min(most - bytes.len());
        let count = reader
            .read(&mut piece[..wanted])
            .map_err(|_| ShelfFault::Failed)?;
        if count == 0 {
            return Ok(bytes);
        }
        bytes.extend_from_slice(&piece[..count])?;
    }
    Err(ShelfFault::TooBig)
}
