ghost use Rattle.std.specs.Prelude.{◌≡◌, ◌≤◌, ◌<◌, ◌+◌, ◌==◌, ◌&&◌, ℕ, nat_le, nat_lt, length, None, Some, slice_index, true};
ghost use Rattle.std.specs.Int.{bit_at};
ghost use Rattle.line_pool.specs.Pooled.{Pooled, is_out};
ghost use Rattle.rv_alu.specs.Loaded.{loaded};
ghost use Rattle.write_hold.specs.Held.{laid};

use el_base::LineAddr;
use line_lanes::{merge, merged_word};
use line_pool::{Pool, Slot};

/// A line that is held: which of its bytes were stored, and the slot that has those.
#[derive(Debug, Drop)]
pub struct Entry {
    pub line: LineAddr,
    /// Bit `place` is set where the byte at that place was stored.
    pub mask: u64,
    pub slot: Slot,
}

impl Entry {
    ghost use Rattle.write_hold.specs.Held.{stored_at};
    ghost use Rattle.write_hold.specs.Entries.{IsMerged, IsStored, byte_over, seen_entry};
    ghost use Rattle.write_hold.specs.Slotted.{lent_entry};

    /// A line in which nothing was stored, whatever bytes its slot has.
    pub fn new(line: LineAddr, slot: Slot) -> Entry
        ensures line { result.line ≡ line }
        ensures slot { result.slot ≡ slot }
        ensures nothing { (pool : Pooled) (place : ℕ) → stored_at (lent_entry pool (seen_entry result)) place ≡ None }
    {
        Entry {
            line,
            mask: 0,
            slot,
        }
    }

    /// Stores bytes from a place on.
    pub fn store(&mut self, pool: &mut Pool, offset: u8, bytes: &[u8])
        requires out { is_out pool.old self.old.slot ≡ true }
        requires some { 1 ≤ length bytes.now }
        requires inside { offset + length bytes.now ≤ 64 }
        ensures { IsStored pool.old pool.new self.old self.new offset bytes.now }
    {
        write_at(pool.bytes_mut(&self.slot), offset, bytes);
        self.mask |= places(offset, bytes.len());
    }

    /// The little-endian word at a place, of the stored bytes and, where none were, those under them.
    pub fn word_over(&self, pool: &Pool, under: &[u8; 64], offset: u8) -> u32
        requires out { is_out pool.now self.now.slot ≡ true }
        requires inside { offset ≤ 60 }
        ensures value { result ≡ loaded (byte_over pool.now self.now under.now) offset 4 }
        ensures bytes { (place : ℕ) → offset ≤ place → place < offset + 4 → byte_over pool.now self.now under.now place < 256 }
    {
        merged_word(under, pool.bytes(&self.slot), self.mask, offset)
    }

    /// Puts the stored bytes over those of the line.
    pub fn merge_into(&self, pool: &Pool, target: &mut [u8; 64])
        requires { is_out pool.now self.now.slot ≡ true }
        ensures { IsMerged pool.now self.now target.old target.new }
    {
        merge(target, pool.bytes(&self.slot), self.mask);
    }
}

/// Writes bytes from a place of a line on.
#[tactic(auto, using(crate::proofs::Stores::written_over))]
fn write_at(line: &mut [u8; 64], offset: u8, bytes: &[u8])
    requires { offset + length bytes.now ≤ 64 }
    ensures { (place : ℕ) →
        Some (slice_index line.new place) ≡ laid offset bytes.now place (Some (slice_index line.old place)) }
{
    let start = usize::from(offset);
    line[start..start + bytes.len()].copy_from_slice(bytes);
}

/// The mask of so many places from one on.
fn places(offset: u8, count: usize) -> u64
    requires some { 1 ≤ count }
    requires inside { offset + count ≤ 64 }
    ensures { (place : ℕ) → (bit_at result place == 1) ≡ (nat_le offset place && nat_lt place (offset + count)) }
{
    (u64::MAX >> (64 - count)) << offset
}
