ghost use Rattle.std.specs.Prelude.{◌≡◌, ℕ, ◌≤◌, ◌==◌, if◌then◌else◌, length};
ghost use Rattle.el_base.specs.NibblePairs.{nibble_in};

use crate::hart_id::{HartId, MAX_HARTS};

/// A number from 0 to 15 for each hart.
///
/// A history keeps up to two of these an event, so two numbers share a byte: that keeps an entry
/// within 16 bytes.
#[derive(Clone, Copy, Debug, PartialEq, Eq)]
pub struct Nibbles {
    /// At place `p` the number of hart `2 * p`, and 16 times that of hart `2 * p + 1`.
    pairs: [u8; MAX_HARTS as usize / 2],
    pub ghost one_byte_for_two: { length pairs ≡ 4 },
    pub ghost each_fits: { (h : ℕ) → nibble_in pairs h ≤ 15 },
}

impl Nibbles {
    ghost use Rattle.el_base.specs.Nibbles.{nibble_of};

    /// The number 0 for each hart.
    pub fn zero() -> Nibbles
        ensures { (h : ℕ) → nibble_of result h ≡ 0 }
    {
        Nibbles {
            pairs: [0; MAX_HARTS as usize / 2],
        }
    }

    /// These numbers, and `number` for `hart`.
    pub fn with(self, hart: HartId, number: u8) -> Nibbles
        requires { number ≤ 15 }
        ensures { (h : ℕ) → nibble_of result h ≡ (if h == hart.number then number else nibble_of self h) }
    {
        let mut pairs = self.pairs;
        let place = (hart.number / 2) as usize;
        let pair = pairs[place];
        pairs[place] = if hart.number % 2 == 0 {
            pair / 16 * 16 + number
        } else {
            number * 16 + pair % 16
        };
        Nibbles { pairs }
    }

    /// The number of `hart`.
    pub fn at(self, hart: HartId) -> u8
        ensures exact { result ≡ nibble_of self hart.number }
        ensures small { result ≤ 15 }
    {
        let pair = self.pairs[(hart.number / 2) as usize];
        if hart.number % 2 == 0 {
            pair % 16
        } else {
            pair / 16
        }
    }
}
