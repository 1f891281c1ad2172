//! A port of one line.

ghost use Rattle.std.specs.Prelude.{◌≡◌, ◌<◌};
ghost use Rattle.core_step.specs.Port.{byte_of};

use core_step::Port;
use el_base::{LINE_BYTES, LineAddr, Need};

/// One line of memory, which may be read and written.
#[derive(Drop)]
pub struct OneLine {
    pub line: LineAddr,
    pub bytes: [u8; 64],
}

impl Port for OneLine {
    ghost use Rattle.std.specs.Prelude.{◌≡◌, ◌==◌};
    ghost use Rattle.core_step.specs.Port.{byte_in_line};

    ghost byte = { λ port. byte_in_line port.line.number port.bytes };

    ghost permits = { λ port line need. line == port.line.number };

    ghost put = { λ before after address len value. after.line ≡ before.line };

    fn ask(&self, line: LineAddr, _need: Need) -> bool {
        line.number == self.line.number
    }

    fn word(&self, address: u32) -> u32 {
        let place = (address % LINE_BYTES) as usize;
        u32::from(self.bytes[place])
            + 256
                * (u32::from(self.bytes[place + 1])
                    + 256
                        * (u32::from(self.bytes[place + 2])
                            + 256 * u32::from(self.bytes[place + 3])))
    }

    #[tactic(auto, using(core_step::proofs::Laws::Lines::none_stored, core_step::proofs::Laws::Lines::one_more_stored))]
    fn store(&mut self, address: u32, len: u32, value: u32) {
        let place = (address % LINE_BYTES) as usize;
        for n in 0..len {
            self.bytes[place + n as usize] = byte_of(value, n);
        }
    }
}

/// A byte of a number, the lowest at place 0.
#[tactic(auto, using(core_step::proofs::Laws::Cuts::byte_shift))]
fn byte_of(value: u32, place: u32) -> u8
    requires { place < 4 }
    ensures { result ≡ byte_of value place }
{
    ((value >> (8 * place)) % 256) as u8
}
