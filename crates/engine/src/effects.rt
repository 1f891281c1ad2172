//! What an action that ran leaves to be done beside its hart and the hart's cache.

ghost use Rattle.std.specs.Prelude.{◌≡◌, ◌<◌, ◌%◌, ◌++◌, length};
ghost use Rattle.cache_sets.specs.Cached.{bytes_of};
ghost use Rattle.cache_sets.specs.Slotted.{IsLent};
ghost use Rattle.el_base.specs.Line.{line_number};
ghost use Rattle.el_base.specs.declared.line.TheConstants.{LINE_BYTES};
ghost use Rattle.engine.specs.Acting.{cache_in, sets_in};
ghost use Rattle.engine.specs.Effect.{CanAppend, IsThere, piece_in, unreserved_on};
ghost use Rattle.engine.specs.Parts.{parts, room_in};
ghost use Rattle.rv_alu.specs.Footprint.{footprint};
ghost use Rattle.rv_flat.specs.Laws.{written_line};
ghost use Rattle.rv_flat.specs.Memory.{piece_of};

use crate::engine::Engine;
use crate::reservations::unreserve_all;
use el_base::{HartId, LINE_BYTES, line_of};
use rv_alu::Action;

impl Engine {
    /// Does what an action that ran leaves to be done: others' reservations on a line that it stored to end, and the
    /// bytes of a write call are appended to the output.
    pub(crate) fn take_effect(&mut self, hart: HartId, action: Action)
        requires cache_exists { hart.number < length (parts self.old).bus.copies.caches }
        requires lent { IsLent (parts self.old).pool (sets_in (parts self.old) hart.number) }
        requires can_append { CanAppend (cache_in (parts self.old) hart.number) (room_in (parts self.old)) action }
        ensures { parts self.new ≡ record (parts self.old) {
          harts = unreserved_on (written_line (footprint action)) (parts self.old).harts;
          output = (parts self.old).output ++ piece_in (cache_in (parts self.old) hart.number) action;
        } }
    {
        match action {
            Action::Append { address, len } => self.append(hart, address, len),
            Action::Store { address, .. }
            | Action::StoreConditional { address, .. }
            | Action::Amo { address, .. } => unreserve_all(&mut self.harts, line_of(address)),
            _ => (),
        }
    }

    /// Appends bytes of a line that the hart's cache has.
    fn append(&mut self, hart: HartId, address: u32, len: u32)
        requires cache_exists { hart.number < length (parts self.old).bus.copies.caches }
        requires lent { IsLent (parts self.old).pool (sets_in (parts self.old) hart.number) }
        requires there { IsThere (cache_in (parts self.old) hart.number) (room_in (parts self.old)) address len }
        ensures { parts self.new ≡ record (parts self.old) {
          output = (parts self.old).output ++ piece_of
              (bytes_of (cache_in (parts self.old) hart.number) (line_number address)) (address % LINE_BYTES) len;
        } }
    {
        let at = (address % LINE_BYTES) as usize;
        let bytes = self.bus.sets(hart).bytes(&self.pool, line_of(address));
        self.output.append(&bytes[at..at + len as usize]);
    }
}
