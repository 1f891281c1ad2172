ghost use Rattle.std.specs.Prelude.{◌≡◌, ◌<◌, ◌≤◌, ◌↔◌, IfOk, IfSome, IsNone, false, length, option_map};
ghost use Rattle.rv_alu.specs.Footprint.{IsAppendIn, IsInPlace, IsLoadIn, IsStoreIn};
ghost use Rattle.rv_alu.specs.Loaded.{loaded};
ghost use Rattle.rv_alu.specs.Span.{holds};
ghost use Rattle.rv_flat.specs.FlatState.{output_limit, room_of, span_of, start, status_of, view_of};
ghost use Rattle.rv_flat.specs.Memory.{byte_in};
ghost use Rattle.rv_flat.specs.Step.{action_of, appended_by, applied, execution_of, flat, stored_by, unreserved_by};

use crate::beginning::first_views;
use crate::memory;
use crate::output::Output;
use crate::reservations::unreserve_all;
use el_base::{HartId, NoMemory, line_of};
use elf_image::{Code, Image};
use rv_alu::{Action, Append, HartStatus, HartView, Load, Span, Store};
use std::alloc::Global;
use std::marker::Model;

mod changes;

/// Harts over plain shared memory. Contracts see the list of their views, memory as its base and
/// the list of its bytes, what instructions are fetched from, and the output as one list.
#[derive(Drop)]
pub struct Flat {
    harts: Vec<HartView>,
    base: u32,
    bytes: Vec<u8>,
    code: Code,
    output: Output,
}

impl Model for Flat {
    ghost use Rattle.std.specs.Prelude.{◌+◌, ◌<◌, ◌≤◌, ◌^◌, length};
    ghost use Rattle.rv_flat.specs.FlatState.{FlatState};

    ghost Value = { FlatState };

    ghost view = { λ f. record { harts = f.harts.items; base = f.base; bytes = f.bytes.items; code = f.code; output = f.output } };

    ghost invariant = { λ f. record {
      small : f.base + length f.bytes.items < 2 ^ 32;
      few : length f.harts.items ≤ 8;
    } };
}

impl Flat {
    /// A program before its first step: each hart at the entry, with its number in x10, the number
    /// of harts in x11, its stack's end in x2 and 0 in the other registers. It takes all memory
    /// that a run needs, that of the whole output too.
    #[tactic(auto, unfolding(crate::specs::FlatState::start))]
    pub fn make(alloc: Global, image: &Image) -> Result<Flat, NoMemory>
        ensures { IfOk result (λ flat. flat ≡ start image.now) }
    {
        Ok(Flat {
            harts: first_views(alloc, image)?,
            base: image.base(),
            bytes: Vec::from_slice(alloc, image.bytes())?,
            code: image.code().share()?,
            output: Output::make(alloc)?,
        })
    }

    /// What the program sees of a hart.
    pub fn hart(&self, hart: HartId) -> HartView
        requires { hart.number < length self.now.harts }
        ensures { result ≡ view_of self.now hart.number }
    {
        self.harts[usize::from(hart.number)]
    }

    /// Whether a hart runs, or how it stopped.
    pub fn status(&self, hart: HartId) -> HartStatus
        requires { hart.number < length self.now.harts }
        ensures { result ≡ status_of self.now hart.number }
    {
        self.harts[usize::from(hart.number)].status
    }

    /// How many harts there are.
    pub fn harts(&self) -> usize
        ensures { result ≡ length self.now.harts }
    {
        self.harts.len()
    }

    /// The byte of memory at an address, or none outside memory.
    pub fn byte(&self, address: u32) -> Option<u8>
        ensures none_exactly_outside { IsNone result ↔ (holds (span_of self.now) address 1 ≡ false) }
        ensures exact { IfSome result (λ byte. byte ≡ byte_in self.now.base self.now.bytes address) }
    {
        let place = address.checked_sub(self.base)?;
        self.bytes.get(place as usize).copied()
    }

    /// What the program has written.
    pub fn output(&self) -> &[u8]
        ensures exact { result.now ≡ self.now.output }
        ensures within_limit { length self.now.output ≤ output_limit }
    {
        self.output.bytes()
    }

    /// One step of a hart: its next instruction, or the trap that it meets (RISC-V unprivileged
    /// manual, chapter 2 and 'A Standard Extension for Atomic Instructions'; what a trap and a call
    /// do is this project's profile). A stopped hart changes nothing. It takes no memory.
    #[tactic(auto, unfolding(crate::specs::Step::flat))]
    pub fn step(&mut self, hart: HartId)
        requires { hart.number < length self.old.harts }
        ensures { self.new ≡ flat self.old hart.number }
    {
        let place = usize::from(hart.number);
        if self.harts[place].status == HartStatus::Running {
            self.execute(place);
        }
    }

    /// The addresses of memory.
    fn span(&self) -> Span
        ensures { result ≡ span_of self.now }
    {
        Span {
            base: self.base,
            end: self.base + self.bytes.len() as u32,
        }
    }

    /// How many bytes the output has room for.
    fn room(&self) -> u32
        ensures { result ≡ room_of self.now }
    {
        self.output.room()
    }

    /// What a hart does next.
    fn next_action(&self, place: usize) -> Action
        requires { place < length self.now.harts }
        ensures value { result ≡ action_of self.now (view_of self.now place) }
        ensures in_place { IsInPlace (span_of self.now) (room_of self.now) result }
    {
        let word = self.code.code_word(self.harts[place].pc);
        Action::at(word, &self.harts[place], self.span(), self.room())
    }

    /// The next instruction of a hart.
    fn execute(&mut self, place: usize)
        requires { place < length self.old.harts }
        ensures { let view = view_of self.old place in self.new ≡ applied self.old place view (execution_of self.old view) }
    {
        let action = self.next_action(place);
        let number = self.loaded(action.loads());
        let transfers = action.perform(&mut self.harts[place], number);
        self.append(transfers.append);
        self.store(transfers.store);
    }

    /// The number that is loaded, if one is.
    fn loaded(&self, load: Option<Load>) -> Option<u32>
        requires { IfSome load (IsLoadIn (span_of self.now)) }
        ensures { result ≡ option_map (λ load. loaded (byte_in self.now.base self.now.bytes) load.address load.len) load }
    {
        match load {
            None => None,
            Some(load) => {
                let place = (load.address - self.base) as usize;
                Some(memory::loaded(&self.bytes, place, load.len))
            }
        }
    }

    /// Appends a piece of memory to the output, if there is one.
    fn append(&mut self, append: Option<Append>)
        requires { IfSome append (IsAppendIn (span_of self.old) (room_of self.old)) }
        ensures { self.new ≡ record self.old { output = appended_by append self.old.base self.old.bytes self.old.output } }
    {
        if let Some(append) = append {
            let place = (append.address - self.base) as usize;
            let piece = &self.bytes[place..place + append.len as usize];
            self.output.append(piece);
        }
    }

    /// Stores in memory, if there is something to store, and takes the reservations on its line.
    fn store(&mut self, store: Option<Store>)
        requires { IfSome store (IsStoreIn (span_of self.old)) }
        ensures { self.new ≡ record self.old {
          harts = unreserved_by store self.old.harts;
          bytes = stored_by store self.old.base self.old.bytes;
        } }
    {
        if let Some(store) = store {
            let place = (store.address - self.base) as usize;
            memory::put_bytes(&mut self.bytes, place, store.len, store.value);
            unreserve_all(&mut self.harts, line_of(store.address));
        }
    }
}
