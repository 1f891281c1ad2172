//! Histories of their own.

ghost use Rattle.std.specs.Prelude.{◌≡◌, IfOk, length};

use chronicle::History;
use el_base::{Chronicled, NoMemory};
use std::alloc::Global;

/// A history of the same events with their outcomes, and no more places.
pub fn copy_of(alloc: Global, history: &History) -> Result<History, NoMemory>
    ensures { IfOk result (λ copy. copy ≡
        record { entries = history.now.entries; places = length history.now.entries }) }
{
    let mut copy = History::make(alloc, history.length())?;
    for place in 0..history.length() {
        copy.push(history.entry(place));
    }
    Ok(copy)
}
