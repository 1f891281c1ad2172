ghost use Rattle.std.specs.Prelude.{◌≡◌, ◌≢◌, ◌<◌, ◌≤◌, List, length, Option, IfOk, OnOk, IfSome};

use std::alloc::{AllocError, AllocFailed, Global};

/// The two kinds of calls of a shelf.
#[derive(Clone, Copy, Debug, PartialEq, Eq)]
pub enum Call {
    Read,
    Write,
}

/// Why a shelf did not do what a call asked.
#[derive(Clone, Copy, Debug, PartialEq, Eq)]
pub enum ShelfFault {
    /// The device failed, and its list of failed calls got this call.
    Failed,
    /// The file has more bytes than the limit. No write answers it.
    TooBig,
    /// Out of memory. Nothing was read or written.
    NoMemory,
}

impl From<AllocError> for ShelfFault {
    ghost use Rattle.el_io.specs.declared.shelf.ShelfFault.TheVariants.{NoMemory};

    ghost from_gives = { λ _ fault. fault ≡ NoMemory };

    fn from(_refused: AllocError) -> ShelfFault {
        ShelfFault::NoMemory
    }
}

impl<T: Drop> From<AllocFailed<T>> for ShelfFault {
    ghost use Rattle.el_io.specs.declared.shelf.ShelfFault.TheVariants.{NoMemory};

    ghost from_gives = { λ _ fault. fault ≡ NoMemory };

    fn from(_refused: AllocFailed<T>) -> ShelfFault {
        ShelfFault::NoMemory
    }
}

/// A device that holds files by name.
///
/// `told` is the map from names to bytes, where the shelf tells it; a name that the map lacks has
/// no bytes. `failures` is the list of the calls that failed, which only grows at its end.
pub trait Shelf {
    ghost use Rattle.el_io.specs.Shelf.{Contents, Holds, KeepsOthers, NamedCall, Records};

    ghost told: { Self → Option Contents };

    ghost failures: { Self → List NamedCall };

    /// Gives the bytes of a file of at most `limit` bytes. Whatever it answers, no file changes.
    ///
    /// `Failed` comes only where this call went to the list of failed calls. Where the contents are
    /// told, `TooBig` comes exactly where the file has more bytes than the limit, but for `Failed`
    /// and out of memory.
    fn read(&mut self, alloc: Global, name: &str, limit: u32) -> Result<Vec<u8>, ShelfFault>
        ensures contents_stay { told self.new ≡ told self.old }
        ensures exact { IfOk result (λ bytes. Holds (told self.old) name.now bytes.items) }
        ensures within_limit { IfOk result (λ bytes. length bytes.items ≤ limit) }
        ensures too_big_only_over_limit { result ≡ Err ShelfFault.TooBig →
            IfSome (told self.old) (λ contents. limit < length (contents name.now)) }
        ensures failures_listed { Records result (failures self.old) (failures self.new) (Call.Read, name.now) };

    /// Makes the bytes the contents of the name. Every other name keeps its contents.
    ///
    /// `Failed` comes only where this call went to the list of failed calls; what the name holds is
    /// then unknown. After `NoMemory` no file has changed. It never answers `TooBig`.
    fn write(&mut self, alloc: Global, name: &str, bytes: &[u8]) -> Result<(), ShelfFault>
        ensures written { OnOk result (Holds (told self.new) name.now bytes.now) }
        ensures others_stay { KeepsOthers (told self.old) (told self.new) name.now }
        ensures contents_stay_without_memory { result ≡ Err ShelfFault.NoMemory →
            told self.new ≡ told self.old }
        ensures never_too_big { result ≢ Err ShelfFault.TooBig }
        ensures failures_listed { Records result (failures self.old) (failures self.new) (Call.Write, name.now) };
}
