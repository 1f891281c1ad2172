ghost use Rattle.std.specs.Prelude.{◌≡◌, ◌≤◌, ◌<◌, ◌+◌, ◌==◌, ◌↔◌, ℕ, [], length, position, true, vec_capacity, IfErr, IfOk, IfSome};
ghost use Rattle.std.specs.Prelude.{IsErr, IsNone, OnOk};
ghost use Rattle.line_pool.specs.Others.{LeavesOthers};
ghost use Rattle.line_pool.specs.Pooled.{Pooled};
ghost use Rattle.rv_alu.specs.Loaded.{loaded};

use crate::entry::Entry;
use crate::lines::Lines;
use el_base::{Config, LineAddr, NoMemory};
use line_lanes::word_at;
use line_pool::Pool;
use std::alloc::Global;
use std::marker::Model;

/// One hart's buffered stores, of which each line has its bytes in a slot of a pool. Contracts see a hold as `Slotted`:
/// how many lines it may hold, the owner of its slots, and the lines that it holds.
#[derive(Drop)]
pub struct Hold {
    entries: Vec<Entry>,
    limit: u8,
    owner: u16,
}

impl Model for Hold {
    ghost use Rattle.std.specs.Prelude.{vec_capacity};
    ghost use Rattle.write_hold.specs.Entries.{HoldStands, hold_of};
    ghost use Rattle.write_hold.specs.Slotted.{Slotted};

    ghost Value = { Slotted };

    ghost view = { λ hold. hold_of hold.limit hold.owner hold.entries.items };

    ghost invariant = { λ hold. HoldStands hold.limit (vec_capacity hold.entries) hold.entries.items };
}

impl Hold {
    ghost use Rattle.write_hold.specs.Calls.{IsDrained, IsFull, IsPut, IsHold};
    ghost use Rattle.write_hold.specs.Held.{has_room_for, holds, seen_at};
    ghost use Rattle.write_hold.specs.Slotted.{IsLent, lent};

    /// A hold of nothing, which may hold as many lines as a section may write in a configuration, and takes its slots
    /// as this owner of a pool.
    pub fn make(alloc: Global, config: &Config, owner: u16) -> Result<Hold, NoMemory>
        ensures { IfOk result (λ hold. hold ≡ record { limit = config.now.lines; owner = owner; entries = [] }) }
    {
        let limit = config.lines;
        Ok(Hold {
            entries: Vec::with_capacity(alloc, limit.into())?,
            limit,
            owner,
        })
    }

    /// Holds these bytes from a place of a line on, over those that are held there. It answers `Lines` exactly where
    /// the line is new and no slot is left for it.
    pub fn put(
        &mut self,
        pool: &mut Pool,
        line: LineAddr,
        offset: u8,
        bytes: &[u8],
    ) -> Result<(), Lines>
        requires lent { IsLent pool.old self.old }
        requires some { 1 ≤ length bytes.now }
        requires inside { offset + length bytes.now ≤ 64 }
        ensures put { OnOk result (IsPut (lent pool.old self.old) (lent pool.new self.new) line.number offset bytes.now) }
        ensures refused_exactly { IsErr result ↔ IsFull (lent pool.old self.old) line.number }
        ensures unchanged { IfErr result (λ lines.
            (self.new ≡ self.old) × (pool.new ≡ pool.old) × (lines.have ≡ length self.old.entries)) }
        ensures lent { IsLent pool.new self.new }
        ensures others { LeavesOthers self.old.owner pool.old pool.new }
        ensures owner { self.new.owner ≡ self.old.owner }
    {
        match place_of(&self.entries, line) {
            Some(place) => {
                self.entries[place].store(pool, offset, bytes);
                Ok(())
            }
            None => match pool.take(self.owner) {
                Some(slot) => {
                    let mut entry = Entry::new(line, slot);
                    entry.store(pool, offset, bytes);
                    self.entries.push_reserved(entry);
                    Ok(())
                }
                None => Err(Lines {
                    have: self.entries.len() as u8,
                }),
            },
        }
    }

    /// The little-endian word at a place of a line: of each byte the held one, else the one under it.
    pub fn read_over(&self, pool: &Pool, line: LineAddr, under: &[u8; 64], offset: u8) -> u32
        requires lent { IsLent pool.now self.now }
        requires inside { offset ≤ 60 }
        ensures value { result ≡ loaded (seen_at (lent pool.now self.now).entries line.number under.now) offset 4 }
        ensures bytes { (place : ℕ) → offset ≤ place → place < offset + 4 →
            seen_at (lent pool.now self.now).entries line.number under.now place < 256 }
    {
        match place_of(&self.entries, line) {
            Some(place) => self.entries[place].word_over(pool, under, offset),
            None => word_at(under, offset),
        }
    }

    /// Puts the held bytes of a line over those of a copy of it, and holds the line no more.
    pub fn drain_into(&mut self, pool: &mut Pool, line: LineAddr, target: &mut [u8; 64])
        requires lent { IsLent pool.old self.old }
        requires held { holds (lent pool.old self.old).entries line.number ≡ true }
        ensures drained { IsDrained (lent pool.old self.old) (lent pool.new self.new) line.number target.old target.new }
        ensures lent { IsLent pool.new self.new }
        ensures others { LeavesOthers self.old.owner pool.old pool.new }
        ensures owner { self.new.owner ≡ self.old.owner }
    {
        let Some(place) = place_of(&self.entries, line) else {
            unreachable!()
        };
        let entry = self.entries.remove(place);
        entry.merge_into(pool, target);
        pool.give(entry.slot);
    }

    /// A line that is held; `None` exactly where nothing is.
    pub fn first(&self) -> Option<LineAddr>
        ensures held { IfSome result (λ line. (pool : Pooled) → holds (lent pool self.now).entries line.number ≡ true) }
        ensures none_exactly { IsNone result ↔ (self.now.entries ≡ []) }
    {
        Some(self.entries.first()?.line)
    }

    /// Holds nothing any more.
    pub fn forget(&mut self, pool: &mut Pool)
        requires { IsLent pool.old self.old }
        ensures forgotten { self.new ≡ record self.old { entries = [] } }
        ensures lent { IsLent pool.new self.new }
        ensures others { LeavesOthers self.old.owner pool.old pool.new }
    {
        while let Some(entry) = self.entries.pop() {
            pool.give(entry.slot);
        }
    }

    /// How many lines are held.
    pub fn len(&self) -> usize
        ensures exact { result ≡ length self.now.entries }
        ensures sound { (pool : Pooled) → IsHold (lent pool self.now) }
    {
        self.entries.len()
    }

    /// Whether bytes of a line may be put: it is held, or there may be one line more.
    pub fn has_room_for(&self, line: LineAddr) -> bool
        ensures exact { (pool : Pooled) → result ≡ has_room_for (lent pool self.now) line.number }
        ensures sound { (pool : Pooled) → IsHold (lent pool self.now) }
    {
        self.has(line) || self.len() < usize::from(self.limit)
    }

    /// Whether a line is held.
    pub fn has(&self, line: LineAddr) -> bool
        ensures exact { (pool : Pooled) → result ≡ holds (lent pool self.now).entries line.number }
        ensures sound { (pool : Pooled) → IsHold (lent pool self.now) }
    {
        place_of(&self.entries, line).is_some()
    }
}

/// Where a line stands among those that are held.
fn place_of(entries: &[Entry], line: LineAddr) -> Option<usize>
    ensures { result ≡ position (λ entry. entry.line.number == line.number) entries.now }
{
    entries
        .iter()
        .position(|entry| entry.line.number == line.number)
}
