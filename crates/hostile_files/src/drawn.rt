//! What is drawn from a number.

use schedule::draw;

/// The sequence that a number begins, of which one place after the other is used.
#[derive(Drop)]
pub struct Drawn {
    seed: u64,
    place: u32,
}

impl Drawn {
    pub fn new(seed: u64) -> Drawn {
        Drawn { seed, place: 0 }
    }

    /// The next number of the sequence modulo a limit, and 0 where that is 0.
    pub fn below(&mut self, limit: usize) -> usize {
        let number = draw(self.seed, self.place);
        self.place = self.place.saturating_add(1);
        match number.checked_rem(limit as u64) {
            Some(rest) => usize::try_from(rest).unwrap_or(0),
            None => 0,
        }
    }
}
