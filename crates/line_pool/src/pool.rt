ghost use Rattle.std.specs.Prelude.{◌≡◌, ◌≤◌, ◌<◌, ◌^◌, ◌↔◌, ℕ, List, IfNone, IfOk, IfSome, IsNone, IsTrue, length};
ghost use Rattle.std.specs.Borrow.{sem};
ghost use Rattle.line_pool.specs.Calls.{IsGiven, IsMade, IsPooled, IsTaken, IsWritten};
ghost use Rattle.line_pool.specs.Kept.{AreKept, IsGivenAt, IsOutAt, index_in};
ghost use Rattle.line_pool.specs.Pooled.{bytes_of, is_out, out_of, quota_of, quotas_of, with_bytes};

use crate::share::Share;
use crate::slot::Slot;
use el_base::NoMemory;
use std::alloc::Global;
use std::marker::Model;

/// The most owners that a pool may have.
pub const MAX_OWNERS: usize = 16;

/// Slots of 64 bytes, of which each owner may have as many out as its quota says. Owners are numbered from 0 on.
/// Contracts see a pool as `Pooled`.
#[derive(Drop)]
pub struct Pool {
    shares: Vec<Share>,
    /// All slots, one owner's after another's.
    lines: Vec<[u8; 64]>,
}

impl Model for Pool {
    ghost use Rattle.std.specs.Prelude.{length};
    ghost use Rattle.line_pool.specs.Pooled.{Pooled};

    ghost Value = { Pooled };

    ghost use Rattle.line_pool.specs.Kept.{PoolStands, shown_pool};

    ghost view = { λ pool. shown_pool pool.shares.items pool.lines.items };

    ghost invariant = { λ pool. PoolStands pool.shares.items (length pool.lines.items) };
}

impl Pool {
    ghost use Rattle.line_pool.specs.Lending.{LendsBytes};

    /// A pool of which each owner, in turn, has as many slots as its quota says. No slot is out, and all bytes are 0.
    pub fn make(alloc: Global, quotas: &[u16]) -> Result<Pool, NoMemory>
        requires { length quotas.now ≤ MAX_OWNERS }
        ensures { IfOk result (IsMade quotas.now) }
    {
        let mut shares = Vec::with_capacity(alloc, quotas.len())?;
        let mut total = 0;
        for quota in quotas {
            shares.push(Share::full(alloc, total, *quota)?)?;
            total += usize::from(*quota);
        }
        let lines = vec![in alloc; [0; 64]; total]?;
        Ok(Pool { shares, lines })
    }

    /// Takes a slot for an owner. Its bytes are those that were last written there. `None` exactly where the owner has
    /// its whole quota out.
    pub fn take(&mut self, owner: u16) -> Option<Slot>
        requires { owner < length (quotas_of self.old) }
        ensures taken { IfSome result (IsTaken self.old self.new owner) }
        ensures none_exactly { IsNone result ↔ (out_of self.old owner ≡ quota_of self.old owner) }
        ensures unchanged { IfNone result (self.new ≡ self.old) }
    {
        let share = &mut self.shares[usize::from(owner)];
        let place = share.take()?;
        Some(Slot { owner, place })
    }

    /// Gives a slot back.
    pub fn give(&mut self, slot: Slot)
        requires { IsTrue (is_out self.old slot) }
        ensures { IsGiven self.old self.new slot }
    {
        let Slot { owner, place } = slot;
        give_to(&mut self.shares, owner, place);
    }

    /// The bytes of a slot.
    pub fn bytes(&self, slot: &Slot) -> &[u8; 64]
        requires { IsTrue (is_out self.now slot.now) }
        ensures { result.now ≡ bytes_of self.now slot.now }
    {
        &self.lines[index_of(&self.shares, slot)]
    }

    /// The bytes of a slot, to be written. What is written becomes the slot's bytes, and all else stays as it was.
    pub fn bytes_mut(&mut self, slot: &Slot) -> &mut [u8; 64]
        requires { IsTrue (is_out self.old slot.now) }
        ensures* lends { sem 𝓛 (LendsBytes self.entry slot.now result) }
        ensures value { result.now ≡ bytes_of self.old slot.now }
        ensures written { (bytes : List ℕ) → IsWritten self.old (with_bytes self.old slot.now bytes) slot.now bytes }
    {
        let index = index_of(&self.shares, slot);
        &mut self.lines[index]
    }

    /// How many slots of an owner are out, those that were dropped among them.
    #[tactic(auto, using(crate::proofs::Made::pooled))]
    pub fn out(&self, owner: u16) -> u16
        requires { owner < length (quotas_of self.now) }
        ensures exact { result ≡ out_of self.now owner }
        ensures sound { IsPooled self.now }
    {
        let share = &self.shares[usize::from(owner)];
        share.quota - share.free.len() as u16
    }

    /// How many owners there are.
    pub fn owners(&self) -> usize
        ensures { result ≡ length (quotas_of self.now) }
    {
        self.shares.len()
    }
}

/// Gives a place back to its owner's share.
fn give_to(shares: &mut Vec<Share>, owner: u16, place: u16)
    requires there { owner < length shares.old.items }
    requires kept { AreKept shares.old.items }
    requires out { IsOutAt owner place shares.old.items }
    ensures { IsGivenAt owner place shares.old.items shares.new.items }
{
    let share = &mut shares[usize::from(owner)];
    share.give(place);
}

/// Where the bytes of a slot are among those of all slots.
fn index_of(shares: &[Share], slot: &Slot) -> usize
    requires kept { AreKept shares.now }
    requires owned { slot.now.owner < length shares.now }
    requires fits { index_in shares.now slot.now < 2 ^ 64 }
    ensures { result ≡ index_in shares.now slot.now }
{
    shares[usize::from(slot.owner)].start + usize::from(slot.place)
}
