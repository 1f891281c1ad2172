//! A run on plain shared memory that can be taken back.

ghost use Rattle.std.specs.Prelude.{◌≡◌, ◌<◌, ◌≤◌, ◌+◌, ◌-◌, ◌++◌, ◌∷◌, ◌↔◌, [], All, IfOk, IfSome, IsNone, false, length, replicate, take};
ghost use Rattle.el_base.specs.Freed.{order_of};
ghost use Rattle.rv_alu.specs.Span.{holds};
ghost use Rattle.rv_flat.specs.FlatState.{output_limit, span_of, view_of};
ghost use Rattle.rv_flat.specs.Memory.{byte_in};
ghost use Rattle.step_back.specs.Effect.{harts_in};
ghost use Rattle.step_back.specs.Track.{reached};

use crate::effect::Effect;
use el_base::{Freed, HartId, MAX_HARTS, NoMemory};
use elf_image::Image;
use rv_alu::HartView;
use rv_flat::{Change, Flat};
use std::alloc::Global;
use std::marker::Model;

/// A run of a program on plain shared memory, with what each instruction has overwritten. Contracts see
/// the harts whose instructions ran, one by one. Only `make` takes memory.
#[derive(Drop)]
pub struct Trail {
    image: Image,
    flat: Flat,
    changes: Vec<Change>,
    room: usize,
}

impl Model for Trail {
    ghost use Rattle.std.specs.Prelude.{◌≤◌, length, vec_capacity};
    ghost use Rattle.step_back.specs.Track.{IsTracked, Track, harts_of};

    ghost Value = { Track };

    ghost view = { λ trail. record { program = trail.image; harts = harts_of trail.changes.items; room = trail.room } };

    ghost invariant = { λ trail. record {
      tracked : IsTracked trail.image trail.flat trail.changes.items;
      within : length trail.changes.items ≤ trail.room;
      reserved : trail.room ≤ vec_capacity trail.changes;
    } };
}

impl Trail {
    /// A program before its first step, with room for so many instructions. It takes all memory.
    pub fn make(alloc: Global, image: Image, room: usize) -> Result<Trail, NoMemory>
        ensures { IfOk result (λ trail. trail ≡ record { program = image; harts = []; room = room }) }
    {
        let flat = Flat::make(alloc, &image)?;
        Ok(Trail {
            image,
            flat,
            changes: Vec::with_capacity(alloc, room)?,
            room,
        })
    }

    /// How many harts there are, from 1 to 8.
    pub fn harts(&self) -> u8
        ensures exact { result ≡ self.now.program.harts }
        ensures within { (1 ≤ result) × (result ≤ 8) }
    {
        self.image.harts()
    }

    /// How many instructions ran.
    pub fn len(&self) -> usize
        ensures exact { result ≡ length self.now.harts }
        ensures within { length self.now.harts ≤ self.now.room }
    {
        self.changes.len()
    }

    /// What the program sees of a hart.
    pub fn hart(&self, hart: HartId) -> HartView
        requires { hart.number < self.now.program.harts }
        ensures { result ≡ view_of (reached self.now) hart.number }
    {
        self.flat.hart(hart)
    }

    /// The byte of memory at an address, or none outside memory.
    pub fn byte(&self, address: u32) -> Option<u8>
        ensures none_exactly_outside { IsNone result ↔ (holds (span_of (reached self.now)) address 1 ≡ false) }
        ensures exact { IfSome result (λ byte.
            byte ≡ byte_in (reached self.now).base (reached self.now).bytes address) }
    {
        self.flat.byte(address)
    }

    /// What the program has written.
    pub fn output(&self) -> &[u8]
        ensures exact { result.now ≡ (reached self.now).output }
        ensures within_limit { length (reached self.now).output ≤ output_limit }
    {
        self.flat.output()
    }

    /// Runs one instruction of a hart.
    pub fn step(&mut self, hart: HartId)
        requires exists { hart.number < self.old.program.harts }
        requires room { length self.old.harts < self.old.room }
        ensures { self.new ≡ record self.old { harts = self.old.harts ++ hart.number ∷ [] } }
    {
        let change = self.flat.step_noting(hart);
        self.changes.push_reserved(change);
    }

    /// Takes the last instruction back.
    pub fn undo(&mut self)
        requires { 1 ≤ length self.old.harts }
        ensures { self.new ≡ record self.old { harts = take (length self.old.harts - 1) self.old.harts } }
    {
        if let Some(change) = self.changes.pop() {
            self.flat.undo(&change);
        }
    }

    /// Runs so many instructions of a hart.
    fn steps(&mut self, hart: HartId, count: u32)
        requires exists { 1 ≤ count → hart.number < self.old.program.harts }
        requires room { length self.old.harts + count ≤ self.old.room }
        ensures { self.new ≡ record self.old { harts = self.old.harts ++ replicate count hart.number } }
    {
        for _ in 0..count {
            self.step(hart);
        }
    }

    /// Runs the instructions of all harts that were let go, in ascending order of the harts.
    fn let_go(&mut self, freed: Freed)
        requires exist { All (λ hart. hart < self.old.program.harts) (order_of freed) }
        requires room { length self.old.harts + length (order_of freed) ≤ self.old.room }
        ensures { self.new ≡ record self.old { harts = self.old.harts ++ order_of freed } }
    {
        for number in 0..MAX_HARTS {
            let hart = HartId::at(number.into());
            self.steps(hart, freed.count_of(hart).into());
        }
    }

    /// Runs what took effect in an event of a hart.
    pub fn take_effect(&mut self, hart: HartId, effect: Effect)
        requires exist { All (λ hart. hart < self.old.program.harts) (harts_in hart.number effect) }
        requires room { length self.old.harts + length (harts_in hart.number effect) ≤ self.old.room }
        ensures { self.new ≡ record self.old { harts = self.old.harts ++ harts_in hart.number effect } }
    {
        match effect {
            Effect::Own { count } => self.steps(hart, count),
            Effect::LetGo { freed } => self.let_go(freed),
        }
    }

    /// Takes so many instructions back.
    pub fn undo_all(&mut self, count: u64)
        requires { count ≤ length self.old.harts }
        ensures { self.new ≡ record self.old { harts = take (length self.old.harts - count) self.old.harts } }
    {
        for _ in 0..count {
            self.undo();
        }
    }
}
