ghost use Rattle.std.specs.Prelude.{◌≡◌, ◌<◌, ◌↔◌, IfOk, IsNone, IsTrue, length};
ghost use Rattle.line_pool.specs.Kept.{IsFull, IsKept, IsTakenFrom, IsGivenTo, shown_share};
ghost use Rattle.line_pool.specs.Pooled.{is_out_in};

use el_base::NoMemory;
use std::alloc::Global;

/// One owner's part of a pool.
#[derive(Drop)]
pub struct Share {
    /// Where the owner's slots begin among all slots.
    pub start: usize,
    /// How many slots the owner has.
    pub quota: u16,
    /// Which of them are free. There is room for all.
    pub free: Vec<u16>,
}

impl Share {
    /// The share of an owner that has so many slots, all of which are free.
    pub fn full(alloc: Global, start: usize, quota: u16) -> Result<Share, NoMemory>
        ensures { IfOk result (IsFull start quota) }
    {
        let mut free = Vec::with_capacity(alloc, quota.into())?;
        for place in 0..quota {
            free.push_reserved(place);
        }
        Ok(Share { start, quota, free })
    }

    /// Takes a place that is free; `None` exactly where none is.
    pub fn take(&mut self) -> Option<u16>
        ensures taken { IsTakenFrom self.old self.new result }
        ensures none_exactly { IsNone result ↔ (length self.old.free.items ≡ 0) }
    {
        self.free.pop()
    }

    /// Gives a place back that is out.
    pub fn give(&mut self, place: u16)
        requires kept { IsKept self.old.start self.old }
        requires out { IsTrue (is_out_in (shown_share self.old) place) }
        ensures { IsGivenTo self.old self.new place }
    {
        self.free.push_reserved(place);
    }
}
