ghost use Rattle.std.specs.Prelude.{◌≡◌, ℕ, ◌≤◌, ◌==◌, if◌then◌else◌, length};

use crate::hart_id::{HartId, MAX_HARTS};
use crate::nibbles::Nibbles;

/// The harts whose instructions, kept private since an `LR.W`, took effect in an event of another hart: each
/// with how many there were, 1 to 15, or 0 for a hart that kept none.
#[derive(Clone, Copy, Debug, PartialEq, Eq)]
pub struct Freed {
    counts: Nibbles,
}

impl Freed {
    ghost use Rattle.el_base.specs.Freed.{count_in, no_one_freed, order_of};

    /// No hart was freed.
    pub fn none() -> Freed
        ensures counts { (h : ℕ) → count_in result h ≡ 0 }
        ensures exact { result ≡ no_one_freed }
    {
        Freed {
            counts: Nibbles::zero(),
        }
    }

    /// These freed harts, and `hart` with `count` instructions, whatever it had before.
    pub fn with(self, hart: HartId, count: u8) -> Freed
        requires some { 1 ≤ count }
        requires fits { count ≤ 15 }
        ensures { (h : ℕ) → count_in result h ≡ (if h == hart.number then count else count_in self h) }
    {
        Freed {
            counts: self.counts.with(hart, count),
        }
    }

    /// How many instructions of `hart` took effect, 0 where it was not freed.
    pub fn count_of(self, hart: HartId) -> u8
        ensures exact { result ≡ count_in self hart.number }
        ensures small { result ≤ 15 }
    {
        self.counts.at(hart)
    }

    /// How many instructions took effect in all.
    pub fn total(self) -> u64
        ensures exact { result ≡ length (order_of self) }
        ensures small { result ≤ 120 }
    {
        let mut total = 0;
        for number in 0..MAX_HARTS {
            total += u64::from(self.count_of(HartId::at(number as usize)));
        }
        total
    }

    /// Freed harts are told apart by their counts alone.
    pub fn equal_by_counts()
        ensures { (a b : Freed) → ((h : ℕ) → count_in a h ≡ count_in b h) → a ≡ b }
    {}
}
