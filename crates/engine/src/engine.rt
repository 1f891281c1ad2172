//! The parts, and what may be seen of them.

ghost use Rattle.std.specs.Prelude.{◌≡◌, ◌<◌, ◌≤◌, ◌↔◌, [], IfOk, IfSome, IsNone, None, false, length, option_map};
ghost use Rattle.el_base.specs.Config.{IsInRange};
ghost use Rattle.el_model.specs.Next.{all_stopped, is_over, shown_of};
ghost use Rattle.el_model.specs.State.{ModelState, armed_of, hart_of, ordered_of, raised_of, section_of};
ghost use Rattle.engine.specs.Acting.{next_action};
ghost use Rattle.engine.specs.Parts.{
  IsInState,
  KeepsReserved,
  KeepsSectionOf,
  committed_at,
  own_at,
  parts,
  present_at,
  room_in,
};
ghost use Rattle.engine.specs.Reached.{Begins, EngineStands};
ghost use Rattle.engine.specs.Views.{committed_views};
ghost use Rattle.hart_state.specs.Own.{HasOwn};
ghost use Rattle.reg_mark.specs.Marks.{committed_of};
ghost use Rattle.rv_alu.specs.Footprint.{IsInPlace};
ghost use Rattle.rv_alu.specs.Span.{holds};
ghost use Rattle.rv_flat.specs.FlatState.{output_limit, room_of, span_of, view_of};
ghost use Rattle.rv_flat.specs.Memory.{byte_in};
ghost use Rattle.rv_flat.specs.Step.{action_of};
ghost use Rattle.snoop.specs.Asking.{asking, numbered_asked};
ghost use Rattle.snoop.specs.Shows.{bus_state};

use crate::beginning::{first_harts, first_pool, memory_of};
use el_base::{Config, HartId, NoMemory};
use elf_image::Image;
use fetch::Fetch;
use hart_state::HartState;
use line_pool::Pool;
use rv_alu::{Action, HartStatus, HartView, Span};
use rv_flat::Output;
use section_ctl::Section;
use snoop::{Asked, Bus};
use std::alloc::Global;

/// The parts of a machine that its events change, with where memory lies and what instructions are fetched from.
#[derive(Drop)]
pub struct Engine {
    pub(crate) config: Config,
    pub(crate) span: Span,
    /// The bytes of all lines of caches and of buffered stores.
    pub(crate) pool: Pool,
    pub(crate) bus: Bus,
    pub(crate) harts: Vec<HartState>,
    pub(crate) code: Fetch,
    pub(crate) output: Output,
}

impl Engine {
    /// The parts before the first event of an image that was made for the configuration's harts. It takes all memory
    /// of a run, that of the whole output too.
    pub fn make(alloc: Global, image: &Image, config: &Config) -> Result<Engine, NoMemory>
        requires in_range { IsInRange config.now }
        requires one_hart_each { image.now.harts ≡ config.now.harts }
        ensures { IfOk result (λ engine. Begins (parts engine) image.now config.now) }
    {
        Ok(Engine {
            config: *config,
            span: memory_of(image),
            pool: first_pool(alloc, config)?,
            bus: Bus::make(alloc, image, config)?,
            harts: first_harts(alloc, image, config)?,
            code: Fetch::make(alloc, image.code().share()?)?,
            output: Output::make(alloc)?,
        })
    }

    /// Whether every hart has stopped.
    pub fn over(&self) -> bool
        ensures exact { result ≡ all_stopped (committed_views (parts self.now).harts) }
        ensures state { (state : ModelState) → IsInState (parts self.now) state → result ≡ is_over state }
    {
        self.have_stopped()
    }

    /// The same, hart by hart.
    #[tactic(auto, using(crate::proofs::Stopping::one_runs, crate::proofs::Stopping::one_more_stopped))]
    fn have_stopped(&self) -> bool
        ensures { result ≡ all_stopped (committed_views (parts self.now).harts) }
    {
        for hart in &self.harts {
            if hart.committed().status == HartStatus::Running {
                return false;
            }
        }
        true
    }

    /// A hart's committed view: its state with all that has taken effect.
    pub fn hart(&self, hart: HartId) -> HartView
        requires { hart.number < length (parts self.now).harts }
        ensures exact { result ≡ committed_at (parts self.now).harts hart.number }
        ensures state { (state : ModelState) → IsInState (parts self.now) state →
            result ≡ view_of state.committed hart.number }
    {
        *self.harts[usize::from(hart.number)].committed()
    }

    /// What a hart itself sees: in a live or an armed section that of its private run, else its committed view.
    #[tactic(auto, using(crate::proofs::Seen::sees_shown))]
    pub fn shown(&self, hart: HartId) -> HartView
        requires { hart.number < length (parts self.now).harts }
        ensures exact { result ≡ present_at (parts self.now).harts hart.number }
        ensures state { (state : ModelState) → IsInState (parts self.now) state → result ≡ shown_of state hart.number }
    {
        *self.harts[usize::from(hart.number)].shown()
    }

    /// A hart's live or armed section, with its views and its buffered stores.
    #[tactic(auto, using(crate::proofs::Seen::sees_shown, crate::proofs::Seen::holds_nothing))]
    pub fn section_state(&self, hart: HartId) -> &Section
        requires { hart.number < length (parts self.now).harts }
        ensures exact { result.now ≡ (own_at (parts self.now).harts hart.number).section }
        ensures live { (state : ModelState) → IsInState (parts self.now) state →
            result.now.live ≡ section_of state hart.number }
        ensures armed { (state : ModelState) → IsInState (parts self.now) state →
            option_map (λ reserved. reserved.armed) result.now.armed ≡ armed_of state hart.number }
        ensures keeps { (state : ModelState) → IsInState (parts self.now) state →
            KeepsSectionOf (parts self.now).pool state hart.number (section_of state hart.number) result.now }
        ensures keeps_armed { (state : ModelState) → IsInState (parts self.now) state →
            KeepsReserved state.committed hart.number result.now.armed result.now.marks.present }
        ensures nothing { (state : ModelState) → IsInState (parts self.now) state →
            result.now.live ≡ None → result.now.hold.entries ≡ [] }
        ensures view { (state : ModelState) → IsInState (parts self.now) state →
            committed_of result.now.marks ≡ view_of state.committed hart.number }
        ensures shown { (state : ModelState) → IsInState (parts self.now) state →
            result.now.marks.present ≡ shown_of state hart.number }
    {
        self.harts[usize::from(hart.number)].section()
    }

    /// What a hart keeps beside the bus.
    pub fn own(&self, hart: HartId) -> &HartState
        requires { hart.number < length (parts self.now).harts }
        ensures exact { result.now ≡ own_at (parts self.now).harts hart.number }
        ensures state { (state : ModelState) → IsInState (parts self.now) state →
            HasOwn result.now (hart_of state hart.number) }
    {
        &self.harts[usize::from(hart.number)]
    }

    /// The byte at an address of committed memory, or none outside it.
    pub fn byte(&self, address: u32) -> Option<u8>
        requires { EngineStands (parts self.now) }
        ensures none_exactly_outside { IsNone result ↔ (holds (parts self.now).span address 1 ≡ false) }
        ensures committed { (state : ModelState) → IsInState (parts self.now) state →
            IfSome result (λ byte. byte ≡ byte_in state.committed.base state.committed.bytes address) }
    {
        self.bus.byte(&self.pool, address)
    }

    /// What the program has written.
    pub fn output(&self) -> &[u8]
        ensures exact { result.now ≡ (parts self.now).output }
        ensures within_limit { length (parts self.now).output ≤ output_limit }
    {
        self.output.bytes()
    }

    /// What a hart has asked of the bus.
    #[tactic(auto, using(crate::proofs::Laws::BusEvents::hart_exists))]
    pub fn request(&self, hart: HartId) -> Asked
        requires hart_exists { hart.number < length (parts self.now).harts }
        requires stands { EngineStands (parts self.now) }
        ensures { (state : ModelState) → IsInState (parts self.now) state →
            numbered_asked result ≡ asking (raised_of state hart.number) (ordered_of state hart.number) }
    {
        self.bus.request(hart)
    }

    /// The bus, with main memory and the caches.
    pub fn bus(&self) -> &Bus
        ensures { bus_state result.now ≡ (parts self.now).bus }
    {
        &self.bus
    }

    /// The pool in whose slots the lines of all caches and all buffered stores lie.
    pub fn pool(&self) -> &Pool
        ensures { result.now ≡ (parts self.now).pool }
    {
        &self.pool
    }

    /// The action that a hart comes to next, as it sees itself.
    #[tactic(auto, using(crate::proofs::Seen::sees_shown, crate::proofs::Seen::acts_as_shown, crate::proofs::Seen::acts_in_place))]
    pub fn next_action(&self, hart: HartId) -> Action
        requires { hart.number < length (parts self.now).harts }
        ensures value { result ≡ next_action (parts self.now) hart.number }
        ensures state { (state : ModelState) → IsInState (parts self.now) state →
            result ≡ action_of state.committed (shown_of state hart.number) }
        ensures placed { (state : ModelState) → IsInState (parts self.now) state →
            IsInPlace (span_of state.committed) (room_of state.committed) result }
        ensures in_place { IsInPlace (parts self.now).span (room_in (parts self.now)) result }
    {
        let view = self.harts[usize::from(hart.number)].shown();
        Action::at(
            self.code.code().code_word(view.pc),
            view,
            self.span,
            self.output.room(),
        )
    }
}
