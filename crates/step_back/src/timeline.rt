//! A run, gone over back and forth.

ghost use Rattle.std.specs.Prelude.{◌≡◌, ◌<◌, ◌≤◌, ◌+◌, ◌-◌, ◌↔◌, All, IfOk, IfSome, IsNone, IsTrue, false, if◌then◌else◌, length, nat_lt};
ghost use Rattle.chronicle.specs.Serial.{serial};
ghost use Rattle.rv_alu.specs.Span.{holds};
ghost use Rattle.rv_flat.specs.FlatState.{output_limit, span_of, view_of};
ghost use Rattle.rv_flat.specs.Memory.{byte_in};
ghost use Rattle.step_back.specs.Standing.{ComesTo, HasNoNext, IsNext, serial_to, state_here};

use crate::effect::Effect;
use crate::trail::Trail;
use chronicle::History;
use el_base::{Chronicled, HartId, NoMemory};
use elf_image::Image;
use rv_alu::HartView;
use std::alloc::Global;
use std::marker::Model;

/// The events of a run, and the committed state at one place among them. Contracts see the program, the
/// events with their outcomes, and the place. Only `make` takes memory.
#[derive(Drop)]
pub struct Timeline {
    history: History,
    trail: Trail,
    place: u32,
}

impl Model for Timeline {
    ghost use Rattle.step_back.specs.Standing.{Standing, StandsAt};

    ghost Value = { Standing };

    ghost view = { λ timeline. record {
      program = timeline.trail.program;
      entries = timeline.history.entries;
      place = timeline.place;
    } };

    ghost invariant = { λ timeline. StandsAt timeline.trail timeline.history.entries timeline.place };
}

impl Timeline {
    /// The run of a program that a history tells of, before its first event. It takes all memory: a change for
    /// each instruction that took effect.
    pub(crate) fn of_history(
        alloc: Global,
        image: Image,
        history: History,
    ) -> Result<Timeline, NoMemory>
        requires { All (λ hart. hart < image.harts) (serial history.entries) }
        ensures { IfOk result (λ timeline.
            timeline ≡ record { program = image; entries = history.entries; place = 0 }) }
    {
        let room = history.serial_len() as usize;
        let trail = Trail::make(alloc, image, room)?;
        Ok(Timeline {
            history,
            trail,
            place: 0,
        })
    }

    /// How many harts there are, from 1 to 8.
    pub fn harts(&self) -> u8
        ensures exact { result ≡ self.now.program.harts }
        ensures within { (1 ≤ result) × (result ≤ 8) }
    {
        self.trail.harts()
    }

    /// How many events there are.
    pub fn places(&self) -> u32
        ensures exact { result ≡ length self.now.entries }
        ensures place { self.now.place ≤ result }
    {
        self.history.length()
    }

    /// How many of the events have been made at the present place, 0 to `places()`.
    pub fn place(&self) -> u32
        ensures exact { result ≡ self.now.place }
        ensures within { result ≤ length self.now.entries }
    {
        self.place
    }

    /// How many instructions have taken effect.
    pub fn serial(&self) -> u64
        ensures { result ≡ length (serial_to self.now.entries self.now.place) }
    {
        self.trail.len() as u64
    }

    /// A hart's committed view.
    pub fn view(&self, hart: HartId) -> HartView
        requires { hart.number < self.now.program.harts }
        ensures { result ≡ view_of (state_here self.now) hart.number }
    {
        self.trail.hart(hart)
    }

    /// The committed byte at an address, or none outside memory.
    pub fn byte(&self, address: u32) -> Option<u8>
        ensures none_exactly_outside { IsNone result ↔ (holds (span_of (state_here self.now)) address 1 ≡ false) }
        ensures exact { IfSome result (λ byte. byte ≡ byte_in (state_here self.now).base (state_here self.now).bytes address) }
    {
        self.trail.byte(address)
    }

    /// What the program has written.
    pub fn output(&self) -> &[u8]
        ensures exact { result.now ≡ (state_here self.now).output }
        ensures within_limit { length (state_here self.now).output ≤ output_limit }
    {
        self.trail.output()
    }

    /// Goes one place on, and tells whether there was one: it answers false, with nothing changed, exactly
    /// behind the last event.
    pub fn forward(&mut self) -> bool
        ensures exact { result ≡ nat_lt self.old.place (length self.old.entries) }
        ensures moved { self.new ≡ (if result then record self.old { place = self.old.place + 1 } else self.old) }
    {
        if self.place == self.history.length() {
            return false;
        }
        let entry = self.history.entry(self.place);
        self.trail
            .take_effect(entry.event.hart, Effect::of(entry.outcome));
        self.place += 1;
        true
    }

    /// Goes one place back, and tells whether there was one: it answers false, with nothing changed, exactly
    /// at place 0.
    pub fn back(&mut self) -> bool
        ensures exact { result ≡ nat_lt 0 self.old.place }
        ensures moved { self.new ≡ (if result then record self.old { place = self.old.place - 1 } else self.old) }
    {
        if self.place == 0 {
            return false;
        }
        let before = self.place - 1;
        let entry = self.history.entry(before);
        self.trail.undo_all(Effect::of(entry.outcome).count());
        self.place = before;
        true
    }

    /// Goes to a place.
    pub fn seek(&mut self, place: u32)
        requires { place ≤ length self.old.entries }
        ensures { self.new ≡ record self.old { place = place } }
    {
        for _ in self.place..place {
            self.forward();
        }
        for _ in place..self.place {
            self.back();
        }
    }

    /// Goes to the least later place after which the hart's committed pc is this one, and before whose last
    /// event it was not. It answers false, with the place as it was, exactly where there is none.
    pub fn next_at(&mut self, hart: HartId, pc: u32) -> bool
        requires { hart.number < self.old.program.harts }
        ensures found { IsTrue result → IsNext self.old hart.number pc self.new.place }
        ensures none { result ≡ false → HasNoNext self.old hart.number pc }
        ensures place { self.new ≡ record self.old { place = self.new.place } }
        ensures stays { result ≡ false → self.new ≡ self.old }
    {
        let start = self.place;
        for _ in start..self.places() {
            if self.comes_to(hart, pc) {
                return true;
            }
        }
        self.seek(start);
        false
    }

    /// Goes one place on, and tells whether the hart comes to this pc there.
    fn comes_to(&mut self, hart: HartId, pc: u32) -> bool
        requires exists { hart.number < self.old.program.harts }
        requires another { self.old.place < length self.old.entries }
        ensures exact { IsTrue result ↔ ComesTo self.old.program self.old.entries hart.number pc (self.old.place + 1) }
        ensures moved { self.new ≡ record self.old { place = self.old.place + 1 } }
    {
        let was_there = self.view(hart).pc == pc;
        self.forward();
        !was_there && self.view(hart).pc == pc
    }
}
