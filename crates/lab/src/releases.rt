//! Sections whose acquire gives a lock back.

ghost use Rattle.std.specs.Prelude.{◌≡◌, ◌≤◌, ◌+◌, ◌++◌, ◌∷◌, [], IfOk, List, OnOk, if◌then◌else◌, length, nat_eq};
ghost use Rattle.std.specs.HashMap.{get};
ghost use Rattle.std.specs.List.{prefix_len};
ghost use Rattle.lab.specs.Releases.{AreLast, is_before, put_there, releases_of, takes_of};
ghost use Rattle.lab.specs.declared.swaps.PlainSwap.{PlainSwap};

use crate::swaps::PlainSwap;
use crate::tries::Try;
use el_base::NoMemory;
use std::alloc::Global;
use std::collections::HashMap;

/// Sections, parted by what their swaps do to the lock.
#[derive(Drop)]
pub struct Parted {
    /// Those that take it.
    pub takes: Vec<Try>,
    /// Those that give it back: the last swap on the word that ran before the section was one of its own hart, which put
    /// there, in place of another value, what the section found.
    pub releases: Vec<Try>,
}

/// Parts sections by the swaps that ran outside of sections, each part in the order of the sections. Where both lists are
/// in the order of their places, as [`crate::watch`] tells them, it goes through each once.
pub fn part_releases(alloc: Global, tries: &[Try], swaps: &[PlainSwap]) -> Result<Parted, NoMemory>
    ensures takes { IfOk result (λ parted. parted.takes.items ≡ takes_of swaps.now tries.now) }
    ensures releases { IfOk result (λ parted. parted.releases.items ≡ releases_of swaps.now tries.now) }
    ensures each_once { IfOk result (λ parted.
        length parted.takes.items + length parted.releases.items ≡ length tries.now) }
{
    let mut parted = Parted {
        takes: Vec::new(alloc),
        releases: Vec::new(alloc),
    };
    let mut last = LastSwaps::none(alloc);
    for begun in tries {
        last = begin_from(alloc, last, begun.first);
        last.go_on(swaps, begun.first)?;
        part(&mut parted, begun, last.on(begun.acquire.word))?;
    }
    Ok(parted)
}

/// Puts a section to its part, by the last swap on its word before it.
fn part(parted: &mut Parted, begun: &Try, last: Option<PlainSwap>) -> Result<(), NoMemory>
    ensures takes { OnOk result (parted.new.takes.items
        ≡ parted.old.takes.items ++ (if put_there begun.now last then [] else begun.now ∷ [])) }
    ensures releases { OnOk result (parted.new.releases.items
        ≡ parted.old.releases.items ++ (if put_there begun.now last then begun.now ∷ [] else [])) }
{
    if put_there(begun, last) {
        parted.releases.push(*begun)?;
    } else {
        parted.takes.push(*begun)?;
    }
    Ok(())
}

/// Whether this swap is one of the section's own hart that put there, in place of another value, what the section found.
fn put_there(begun: &Try, last: Option<PlainSwap>) -> bool
    ensures { result ≡ put_there begun.now last }
{
    match last {
        Some(swap) => {
            swap.hart.number == begun.hart.number && swap.new == begun.old && swap.old != swap.new
        }
        None => false,
    }
}

/// The last swap on each word, of the first swaps of a list.
#[derive(Drop)]
struct LastSwaps {
    /// By the address of the word.
    on: HashMap<u32, PlainSwap>,
    /// How many swaps of the list they are.
    seen: usize,
    /// A place that is past all of them.
    reached: u32,
}

impl LastSwaps {
    /// Of no swaps.
    fn none(alloc: Global) -> LastSwaps
        ensures none { (swaps : List PlainSwap) → AreLast swaps result }
        ensures start { result.reached ≡ 0 }
    {
        LastSwaps {
            on: HashMap::new(alloc),
            seen: 0,
            reached: 0,
        }
    }

    /// The last of them on a word.
    fn on(&self, word: u32) -> Option<PlainSwap>
        ensures { result ≡ get nat_eq self.now.on word }
    {
        self.on.get(&word).copied()
    }

    /// Goes on through the swaps before a place.
    fn go_on(&mut self, swaps: &[PlainSwap], place: u32) -> Result<(), NoMemory>
        requires last { AreLast swaps.now self.old }
        requires further { self.old.reached ≤ place }
        ensures last { OnOk result (AreLast swaps.now self.new) }
        ensures all { OnOk result (self.new.seen ≡ prefix_len (is_before place) swaps.now) }
    {
        self.reached = place;
        for index in self.seen..swaps.len() {
            let swap = swaps[index];
            if swap.place >= place {
                return Ok(());
            }
            self.on.insert(swap.acquire.word, swap)?;
            self.seen = index + 1;
        }
        Ok(())
    }
}

/// From where to go on to a place: from there, or from the start where that is past it.
fn begin_from(alloc: Global, last: LastSwaps, place: u32) -> LastSwaps
    ensures last { (swaps : List PlainSwap) → AreLast swaps last → AreLast swaps result }
    ensures further { result.reached ≤ place }
{
    if last.reached <= place {
        last
    } else {
        LastSwaps::none(alloc)
    }
}
