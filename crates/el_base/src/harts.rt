ghost use Rattle.std.specs.Prelude.{◌≡◌, ℕ, ◌<◌, ◌==◌, ◌||◌, ◌&&◌, not, false};
ghost use Rattle.std.specs.Int.{bit_at};

use crate::hart_id::HartId;

/// A set of harts.
#[derive(Clone, Copy, Debug, PartialEq, Eq)]
pub struct Harts {
    /// Bit `h` is set where the set has hart `h`.
    bits: u8,
}

impl Harts {
    ghost use Rattle.el_base.specs.Harts.{has_hart};

    /// The set that has no hart.
    pub fn empty() -> Harts
        ensures { (h : ℕ) → has_hart result h ≡ false }
    {
        Harts { bits: 0 }
    }

    /// Whether the set has this hart.
    pub fn has(self, hart: HartId) -> bool
        ensures { result ≡ has_hart self hart.number }
    {
        (self.bits >> hart.number) & 1 == 1
    }

    /// The set and this hart.
    #[tactic(auto, using(crate::proofs::Laws::BitSets::set_bits))]
    pub fn with(self, hart: HartId) -> Harts
        ensures { (h : ℕ) → has_hart result h ≡ (has_hart self h || h == hart.number) }
    {
        Harts {
            bits: self.bits | bit_of(hart),
        }
    }

    /// The set without this hart.
    #[tactic(auto, using(crate::proofs::Laws::BitSets::set_bits))]
    pub fn without(self, hart: HartId) -> Harts
        ensures { (h : ℕ) → has_hart result h ≡ (has_hart self h && not (h == hart.number)) }
    {
        Harts {
            bits: self.bits & !bit_of(hart),
        }
    }
}

/// The byte in which the bit of this hart alone is set.
fn bit_of(hart: HartId) -> u8
    ensures { (h : ℕ) → (bit_at result h == 1) ≡ (h == hart.number) }
{
    1 << hart.number
}
