ghost use Rattle.std.specs.Prelude.{◌≡◌, ◌<◌, IfOk, IfSome, Some};
ghost use Rattle.elf_image.specs.Program.{code_word};
ghost use Rattle.fetch.specs.Kept.{insn_in, slot_number};
ghost use Rattle.rv_alu.specs.Action.{action_at};
ghost use Rattle.rv_alu.specs.Footprint.{IsInPlace};

use crate::decoded::Decoded;
use el_base::NoMemory;
use elf_image::Code;
use rv_alu::{Action, HartView, Span};
use rv_word::{Insn, decode};
use std::alloc::Global;
use std::marker::Model;

/// How many slots there are: code of 4 KiB has a slot for each instruction.
const SLOTS: usize = 1024;

/// What harts fetch from: the code of an image, and in slots the instructions that were decoded last. Each address
/// has one slot, which it shares with others. Contracts see a `Fetch` as its code.
#[derive(Debug, Drop)]
pub struct Fetch {
    code: Code,
    slots: Vec<Option<Decoded>>,
}

impl Model for Fetch {
    ghost use Rattle.std.specs.Prelude.{List, ◌≡◌, All, length};
    ghost use Rattle.elf_image.specs.Program.{CodeSegment};
    ghost use Rattle.fetch.specs.Kept.{IsKept};

    ghost Value = { List CodeSegment };

    ghost view = { λ s. s.code };

    ghost invariant = { λ s. (length s.slots.items ≡ 1024) × All (IsKept s.code) s.slots.items };
}

impl Fetch {
    /// The code, of which nothing is decoded yet. It takes the memory of all slots.
    pub fn make(alloc: Global, code: Code) -> Result<Fetch, NoMemory>
        ensures { IfOk result (λ fetch. fetch ≡ code) }
    {
        Ok(Fetch {
            code,
            slots: vec![in alloc; None; SLOTS]?,
        })
    }

    /// The code.
    pub fn code(&self) -> &Code
        ensures { result.now ≡ self.now }
    {
        &self.code
    }

    /// What a hart does next. `room` is how many bytes the output still takes.
    pub fn next(&mut self, view: &HartView, span: Span, room: u32) -> Action
        ensures value { result ≡ action_at (code_word self.old view.now.pc) view.now span room }
        ensures in_place { IsInPlace span room result }
        ensures same { self.new ≡ self.old }
    {
        match self.kept(view.pc) {
            Some(insn) => Action::of(insn, view.pc, &view.regs, view.reserved, span, room),
            None => self.miss(view, span, room),
        }
    }

    /// The instruction at `pc`, where it is kept.
    fn kept(&self, pc: u32) -> Option<&Insn>
        ensures { IfSome result (λ insn. insn_in self.now pc ≡ Some insn.now) }
    {
        match &self.slots[slot_of(pc)] {
            Some(kept) if kept.pc == pc => Some(&kept.insn),
            _ => None,
        }
    }

    /// What a hart does next whose instruction is not kept: it is decoded, and kept from now on, if there is one. It
    /// stands apart from [`Fetch::next`], so that what most steps do is short.
    #[cold]
    #[inline(never)]
    fn miss(&mut self, view: &HartView, span: Span, room: u32) -> Action
        ensures value { result ≡ action_at (code_word self.old view.now.pc) view.now span room }
        ensures in_place { IsInPlace span room result }
        ensures same { self.new ≡ self.old }
    {
        match self.decoded(view.pc) {
            Some(insn) => {
                self.slots[slot_of(view.pc)] = Some(Decoded { pc: view.pc, insn });
                Action::of(&insn, view.pc, &view.regs, view.reserved, span, room)
            }
            None => Action::at(self.code.code_word(view.pc), view, span, room),
        }
    }

    /// The instruction at `pc`, or none where no code word lies there or the word means none.
    fn decoded(&self, pc: u32) -> Option<Insn>
        ensures { result ≡ insn_in self.now pc }
    {
        decode(self.code.code_word(pc)?)
    }
}

/// The slot of the instruction at `pc`.
fn slot_of(pc: u32) -> usize
    ensures exact { result ≡ slot_number pc }
    ensures small { result < 1024 }
{
    pc as usize / 4 % SLOTS
}
