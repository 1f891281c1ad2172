//! A port of one line.

ghost use Rattle.std.specs.Prelude.{◌≡◌, ◌<◌};
ghost use Rattle.core_step.specs.Port.{byte_of};

use crate::port::Port;
use el_base::{LINE_BYTES, LineAddr, Need};

/// One line of memory, which may be read or not, and written or not.
#[derive(Clone, Copy, Debug, PartialEq, Eq)]
pub struct Page {
    pub line: LineAddr,
    pub bytes: [u8; 64],
    pub reads: bool,
    pub writes: bool,
}

impl Port for Page {
    ghost use Rattle.std.specs.Prelude.{◌≡◌, ◌==◌, ◌&&◌};
    ghost use Rattle.core_step.specs.Port.{by_need, byte_in_line};

    ghost byte = { λ page. byte_in_line page.line.number page.bytes };

    ghost permits = { λ page line need. line == page.line.number && by_need page.reads page.writes need };

    ghost put = { λ before after address len value. after.line ≡ before.line };

    fn ask(&self, line: LineAddr, need: Need) -> bool {
        line.number == self.line.number
            && match need {
                Need::Read => self.reads,
                Need::Write => self.writes,
            }
    }

    fn word(&self, address: u32) -> u32 {
        let place = (address % LINE_BYTES) as usize;
        u32::from(self.bytes[place])
            + 256
                * (u32::from(self.bytes[place + 1])
                    + 256
                        * (u32::from(self.bytes[place + 2])
                            + 256 * u32::from(self.bytes[place + 3])))
    }

    #[tactic(auto, using(crate::proofs::Laws::Lines::none_stored, crate::proofs::Laws::Lines::one_more_stored))]
    fn store(&mut self, address: u32, len: u32, value: u32) {
        let place = (address % LINE_BYTES) as usize;
        for n in 0..len {
            self.bytes[place + n as usize] = byte_of(value, n);
        }
    }
}

/// A byte of a number, the lowest at place 0.
#[tactic(auto, using(crate::proofs::Laws::Cuts::byte_shift))]
fn byte_of(value: u32, place: u32) -> u8
    requires { place < 4 }
    ensures { result ≡ byte_of value place }
{
    ((value >> (8 * place)) % 256) as u8
}
