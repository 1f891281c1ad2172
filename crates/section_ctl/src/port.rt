//! The way to memory of a section: its buffered stores over its lock word and its hart's cache.

ghost use Rattle.std.specs.Prelude.{◌≡◌, ◌%◌};
ghost use Rattle.section_ctl.specs.Lent.{LendsBoth};

use crate::bytes::{low_bytes, with_word};
use bitflags::Flags;
use cache_sets::{Bits, Sets};
use core_step::Port;
use el_base::{LINE_BYTES, LineAddr, Need, line_of};
use line_pool::Pool;
use write_hold::Hold;

/// One line as a section sees it: what it stored there, over the new value of its lock word, over the
/// bytes that its hart's cache has, where one pool lends both. A store goes into the hold.
#[derive(Drop)]
pub(crate) struct SectionPort<'a> {
    pub(crate) pool: &'a mut Pool,
    pub(crate) hold: &'a mut Hold,
    pub(crate) sets: &'a Sets,
    pub(crate) line: LineAddr,
    /// The address of the lock word, and the value that the section reads there.
    pub(crate) word: u32,
    pub(crate) new: u32,
    ghost aligned: { word % 4 ≡ 0 },
    ghost lent: { LendsBoth pool.now sets.now hold.now },
}

impl Port for SectionPort<'_> {
    ghost use Rattle.std.specs.Prelude.{◌≡◌};
    ghost use Rattle.cache_sets.specs.Slotted as caches;
    ghost use Rattle.section_ctl.specs.Lent.{IsPutInPool};
    ghost use Rattle.section_ctl.specs.Shown.{permits_one, port_byte};
    ghost use Rattle.write_hold.specs.Slotted as holds;

    ghost byte = { λ port. port_byte (holds.lent port.pool.now port.hold.now).entries port.word port.new
        (caches.lent port.pool.now port.sets.now) };

    ghost permits = { λ port. permits_one port.line.number port.sets.now.residency
        (holds.lent port.pool.now port.hold.now) };

    ghost put = { λ before after address len value. (before.hold.ghost_name ≡ after.hold.ghost_name)
        × (before.pool.ghost_name ≡ after.pool.ghost_name)
        × IsPutInPool before.sets.now before.pool.now after.pool.now before.hold.now after.hold.now address len value };

    fn ask(&self, line: LineAddr, need: Need) -> bool {
        line.number == self.line.number
            && match need {
                Need::Read => self.sets.bits(line) != Bits::empty(),
                Need::Write => {
                    self.sets.bits(line).has(Need::Write) && self.hold.has_room_for(line)
                }
            }
    }

    fn word(&self, address: u32) -> u32 {
        let line = line_of(address);
        let place = (address % LINE_BYTES) as u8;
        let under = self.sets.bytes(self.pool, line);
        if address == self.word {
            self.hold
                .read_over(self.pool, line, &with_word(under, place, self.new), place)
        } else {
            self.hold.read_over(self.pool, line, under, place)
        }
    }

    fn store(&mut self, address: u32, len: u32, value: u32) {
        let bytes = low_bytes(value);
        let place = (address % LINE_BYTES) as u8;
        match self
            .hold
            .put(self.pool, line_of(address), place, &bytes[..len as usize])
        {
            Ok(()) => (),
            Err(_) => unreachable!(),
        }
    }
}
