ghost use Rattle.std.specs.Prelude.{◌≡◌, ℕ, ◌==◌, ◌≤◌, if◌then◌else◌, None, Some};
ghost use Rattle.std.specs.Option.{option_map};
ghost use Rattle.el_base.specs.Nibbles.{nibble_of};

use crate::hart_id::HartId;
use crate::nibbles::Nibbles;

/// The harts whose sections lost in one event, each with the hart that it lost to.
#[derive(Clone, Copy, Debug, PartialEq, Eq)]
pub struct Losers {
    /// At each hart one more than its winner's number, or 0 where it has not lost.
    winners: Nibbles,
    pub ghost winners_are_harts: { (h : ℕ) → nibble_of winners h ≤ 8 },
}

impl Losers {
    ghost use Rattle.el_base.specs.Losers.{beaten_by};

    /// No hart has lost.
    pub fn none() -> Losers
        ensures { (h : ℕ) → beaten_by result h ≡ None }
    {
        Losers {
            winners: Nibbles::zero(),
        }
    }

    /// These losers, and `loser` beaten by `winner`, whoever it was beaten by before.
    pub fn with(self, loser: HartId, winner: HartId) -> Losers
        ensures { (h : ℕ) →
            beaten_by result h ≡ (if h == loser.number then Some winner.number else beaten_by self h) }
    {
        Losers {
            winners: self.winners.with(loser, winner.number + 1),
        }
    }

    /// The hart that `loser` lost to, or `None` where it has not lost.
    pub fn winner_of(self, loser: HartId) -> Option<HartId>
        ensures { option_map (λ hart. hart.number) result ≡ beaten_by self loser.number }
    {
        let number = self.winners.at(loser).checked_sub(1)?;
        HartId::new(number)
    }

    /// Losers are told apart by their winners alone.
    pub fn equal_by_winners()
        ensures { (a b : Losers) → ((h : ℕ) → beaten_by a h ≡ beaten_by b h) → a ≡ b }
    {}
}
