ghost use Rattle.std.specs.Prelude.{
  ℕ,
  ◌≡◌,
  ◌<◌,
  ◌≤◌,
  ◌∷◌,
  [],
  ◌↔◌,
  IfOk,
  OnOk,
  IfSome,
  All,
  IsNone,
  Some,
  None,
  Err,
  length,
  map,
  IsSome,
  false,
  option_map,
  is_some,
  true,
  take,
};
ghost use Rattle.chronicle.specs.Chronicle.{events};
ghost use Rattle.el_base.specs.Config.{IsInRange, config_fault};
ghost use Rattle.el_base.specs.Recordable.{IsRecordable};
ghost use Rattle.el_base.specs.declared.config.ConfigFault.{ConfigFault};
ghost use Rattle.el_base.specs.declared.config.Mode.TheVariants.{Tlr};
ghost use Rattle.el_model.specs.Next.{is_over, next, shown_of};
ghost use Rattle.el_model.specs.State as model;
ghost use Rattle.el_model.specs.State.{armed_of, cache_of, hart_of, ordered_of, raised_of, section_of};
ghost use Rattle.elf_image.specs.Program.{IsProgram};
ghost use Rattle.engine.specs.Parts.{parts};
ghost use Rattle.engine.specs.Reached.{Begins};
ghost use Rattle.engine.specs.Resting.{Leaves, finds_nothing, is_quiet, waiting_of};
ghost use Rattle.engine.specs.OwnState.{HasOwn};
ghost use Rattle.coherence.specs.Beginning.{line_of};
ghost use Rattle.line_pool.specs.Pooled.{Pooled};
ghost use Rattle.machine.specs.Lending.{LendsSection, LendsState, TellsRun, TellsRunSomewhere};
ghost use Rattle.machine.specs.MainMemory.{main_lines};
ghost use Rattle.machine.specs.Promises.{
  EndsAreNamed,
  LeastStays,
  LineOfLeastMovesOn,
  LosesToLess,
  OthersAreUntouched,
  ReleasesTakeEffect,
  StampsStay,
  change,
};
ghost use Rattle.machine.specs.Resting.{bus_events, turn_events};
ghost use Rattle.machine.specs.Story.{IsOneRun, committed, continued, history_of, left_of, memory_of, state_of};
ghost use Rattle.reg_mark.specs.Marks.{committed_of};
ghost use Rattle.rv_alu.specs.Footprint.{IsInPlace};
ghost use Rattle.rv_alu.specs.Span.{holds};
ghost use Rattle.rv_flat.specs.FlatState.{output_limit, room_of, view_of};
ghost use Rattle.rv_flat.specs.Memory.{AreBytes, byte_in};
ghost use Rattle.rv_flat.specs.Step.{action_of};
ghost use Rattle.engine.specs.PrivateRun.{IsArmedRun, IsCoveredRun};
ghost use Rattle.engine.specs.SectionState as sections;
ghost use Rattle.engine.specs.EachHart.{IsShortArmed};
ghost use Rattle.engine.specs.KeptRun.{HoldsMarked, KeepsArmed};
ghost use Rattle.engine.specs.Asking.{asking, numbered_asked};
ghost use Rattle.engine.specs.Shows.{IsReady, Shows, Tells, bus_state};
ghost use Rattle.engine.specs.Counts.{IsSectionShort};

use crate::fault::MakeFault;
use crate::lent::Lent;
use chronicle::History;
use el_base::{Chronicled, Config, Entry, Event, HartId, Kind, Outcome};
use elf_image::Image;
use engine::{Armed, Asked, Bus, Engine, HartState, Live, Section};
use line_pool::Pool;
use rv_alu::{Action, HartView};
use std::alloc::Global;
use std::marker::Model;

/// A program on several harts, with a history of the events that were made.
#[derive(Drop)]
pub struct Machine {
    image: Image,
    config: Config,
    pub(crate) engine: Engine,
    history: History,
}

impl Model for Machine {
    ghost use Rattle.engine.specs.Parts.{parts};
    ghost use Rattle.machine.specs.Stands.{MachineStands};
    ghost use Rattle.machine.specs.Story.{Story};

    ghost Value = { Story };

    ghost view = { λ m. record { program = m.image; config = m.config; entries = m.history.entries } };

    ghost invariant = { λ m.
        MachineStands (record { program = m.image; config = m.config; entries = m.history.entries })
        (parts m.engine) m.history.places };
}

impl Machine {
    /// A machine before its first event, of an image that was made for the configuration's harts. It
    /// takes all memory of the run. An error is the fault of the configuration, if it has one, and
    /// else out of memory.
    pub fn make(alloc: Global, image: Image, config: Config) -> Result<Machine, MakeFault>
        requires one_hart_each { image.harts ≡ config.harts }
        ensures made { IfOk result (λ machine.
            machine ≡ record { program = image; config = config; entries = [] }) }
        ensures in_range { OnOk result (IsInRange config) }
        ensures refused { (fault : ConfigFault) →
            result ≡ Err (MakeFault.Config fault) → config_fault config ≡ Some fault }
        ensures memory_after_faults { result ≡ Err MakeFault.NoMemory → IsInRange config }
    {
        prove!(image.harts() == config.harts);
        are_bytes(image.bytes());
        config.check()?;
        let engine = Engine::make(alloc, &image, &config)?;
        let history = History::make(alloc, config.steps)?;
        Ok(Machine::begin(image, config, engine, history))
    }

    /// A machine of its parts before the first event.
    fn begin(image: Image, config: Config, engine: Engine, history: History) -> Machine
        requires program { IsProgram image }
        requires bytes { AreBytes image.bytes }
        requires in_range { IsInRange config }
        requires one_hart_each { image.harts ≡ config.harts }
        requires engine { Begins (parts engine) image config }
        requires history { history ≡ record { entries = []; places = config.steps } }
        ensures { result ≡ record { program = image; config = config; entries = [] } }
    {
        Machine {
            image,
            config,
            engine,
            history,
        }
    }

    /// Makes one event, and puts it with its outcome behind the history.
    ///
    /// What it keeps of live sections: one ends by its own hart's commit or rollback, or the outcome names its hart
    /// among the losers; one whose hart did not step shows the same view, and the same of each byte whose committed value
    /// stays; at its release a section takes effect whole. A stamp stays until its attempt closes. In lock removal each
    /// loser lost to a hart that waits with a less stamp, and the least stamp never loses; where its hart waits for a
    /// line and the messages about that line are delivered, no live section retains the line, and a serve of its first
    /// request is served, or blocked by a hart that holds the line until its next step, which is progress. The last three
    /// are the idea of R. Rajwar and J. R. Goodman, 'Transactional Lock-Free Execution of Lock-Based Programs', ASPLOS
    /// 2002, and the first three that of their 'Speculative Lock Elision', MICRO 2001.
    #[inline(always)]
    #[tactic(auto, using(crate::proofs::GoesOn::told_more))]
    pub fn step(&mut self, event: Event) -> Outcome
        requires hart_exists { event.hart.number < self.old.config.harts }
        requires step_left { 1 ≤ left_of self.old }
        ensures goes_on { self.new ≡ continued self.old (event ∷ []) }
        ensures outcome { result ≡ (next (state_of self.old) event).outcome }
        ensures one_run { IsOneRun self.new }
        ensures ends_are_named { EndsAreNamed (change self.old event result self.new) }
        ensures losers_lost_to_less { self.old.config.mode ≡ Tlr → LosesToLess (change self.old event result self.new) }
        ensures least_never_loses { self.old.config.mode ≡ Tlr → LeastStays (change self.old event result self.new) }
        ensures line_of_least_moves_on { self.old.config.mode ≡ Tlr → LineOfLeastMovesOn (state_of self.old) }
        ensures stamps_stay { StampsStay (change self.old event result self.new) }
        ensures releases_commit { ReleasesTakeEffect self.old.config.long (change self.old event result self.new) }
        ensures others_are_untouched { OthersAreUntouched (change self.old event result self.new) }
    {
        let outcome = self.engine.step(event);
        self.history.push(Entry { event, outcome });
        outcome
    }

    /// Makes the three events of the bus in a hart's turn, an order, a serve and a delivery, where each finds nothing to
    /// do, as in most of a run; says whether it made them. They leave the state as it is.
    #[inline(always)]
    #[tactic(auto, using(crate::proofs::Resting::three_made))]
    pub fn rest(&mut self, hart: HartId) -> bool
        requires hart_exists { hart.number < self.old.config.harts }
        requires steps_left { 3 ≤ left_of self.old }
        ensures exact { result ≡ is_quiet (state_of self.old) hart.number }
        ensures made { result ≡ true → self.new ≡ continued self.old (bus_events hart) }
        ensures left { result ≡ false → self.new ≡ self.old }
        ensures same_state { state_of self.new ≡ state_of self.old }
        ensures throughout { result ≡ true → (made : ℕ) →
            state_of (continued self.old (take made (bus_events hart))) ≡ state_of self.old }
        ensures one_run { IsOneRun self.new }
    {
        if !self.engine.is_quiet(hart) {
            return false;
        }
        self.idle(Kind::Order, hart);
        self.idle(Kind::Serve, hart);
        self.idle(Kind::Deliver, hart);
        true
    }

    /// Makes the four events of a hart's turn where it waits in all of them: its step stalls, there is nothing to place,
    /// something is in the way of its request, and no message has come to it. It says whether it made them. They leave
    /// the state as it is.
    #[inline(always)]
    pub fn wait(&mut self, hart: HartId) -> bool
        requires hart_exists { hart.number < self.old.config.harts }
        requires steps_left { 4 ≤ left_of self.old }
        ensures exact { result ≡ is_some (waiting_of (state_of self.old) hart.number) }
        ensures made { result ≡ true → self.new ≡ continued self.old (turn_events hart) }
        ensures left { result ≡ false → self.new ≡ self.old }
        ensures runs { result ≡ true → is_over (state_of self.old) ≡ false }
        ensures throughout { result ≡ true → (made : ℕ) →
            state_of (continued self.old (take made (turn_events hart))) ≡ state_of self.old }
        ensures one_run { IsOneRun self.new }
    {
        let Some(blocked) = self.engine.waiting(hart) else {
            return false;
        };
        self.leave(Kind::Step, hart, Outcome::Stalled);
        self.leave(Kind::Order, hart, Outcome::Idle);
        self.leave(Kind::Serve, hart, blocked);
        self.leave(Kind::Deliver, hart, Outcome::Idle);
        true
    }

    /// Makes an event that finds nothing to do.
    #[inline(always)]
    fn idle(&mut self, kind: Kind, hart: HartId)
        requires hart_exists { hart.number < self.old.config.harts }
        requires step_left { 1 ≤ left_of self.old }
        requires nothing { finds_nothing (state_of self.old) (record { kind = kind; hart = hart }) ≡ true }
        ensures goes_on { self.new ≡ continued self.old (record { kind = kind; hart = hart } ∷ []) }
        ensures same_state { state_of self.new ≡ state_of self.old }
        ensures one_run { IsOneRun self.new }
    {
        self.leave(kind, hart, Outcome::Idle);
    }

    /// Makes an event that leaves the state as it is, with its outcome.
    #[inline(always)]
    fn leave(&mut self, kind: Kind, hart: HartId, outcome: Outcome)
        requires hart_exists { hart.number < self.old.config.harts }
        requires step_left { 1 ≤ left_of self.old }
        requires leaves { Leaves (state_of self.old) (record { kind = kind; hart = hart }) outcome }
        ensures goes_on { self.new ≡ continued self.old (record { kind = kind; hart = hart } ∷ []) }
        ensures same_state { state_of self.new ≡ state_of self.old }
        ensures one_run { IsOneRun self.new }
    {
        self.history.push(Entry {
            event: Event { kind, hart },
            outcome,
        });
    }

    /// Whether every hart has stopped.
    pub fn over(&self) -> bool
        ensures { result ≡ is_over (state_of self.now) }
    {
        self.engine.over()
    }

    /// How many more events may be made.
    pub fn steps_left(&self) -> u32
        ensures { result ≡ left_of self.now }
    {
        self.history.spare()
    }

    /// The events that were made, with their outcomes, each of which can be recorded in a trace.
    pub fn history(&self) -> &History
        ensures exact { result.now ≡ history_of self.now }
        ensures one_run { IsOneRun self.now }
        ensures recordable { All (IsRecordable self.now.config.harts self.now.config.long)
            (map (λ entry. entry.outcome) self.now.entries) }
        ensures within { length self.now.entries ≤ self.now.config.steps }
        ensures harts_exist { All (λ event. event.hart.number < self.now.config.harts) (events self.now.entries) }
    {
        &self.history
    }

    /// What the program has written.
    pub fn output(&self) -> &[u8]
        ensures exact { result.now ≡ (committed self.now).output }
        ensures within_limit { length (committed self.now).output ≤ output_limit }
    {
        self.engine.output()
    }

    /// What the machine was made with.
    pub fn config(&self) -> Config
        ensures exact { result ≡ self.now.config }
        ensures in_range { IsInRange self.now.config }
        ensures one_hart_each { self.now.program.harts ≡ self.now.config.harts }
    {
        self.config
    }

    /// A hart's committed view: its state with all that has taken effect.
    pub fn hart(&self, hart: HartId) -> HartView
        requires { hart.number < self.now.config.harts }
        ensures { result ≡ view_of (committed self.now) hart.number }
    {
        self.engine.hart(hart)
    }

    /// What a hart itself sees: in a live or an armed section what the section shows, else its committed view.
    pub fn shown(&self, hart: HartId) -> HartView
        requires { hart.number < self.now.config.harts }
        ensures { result ≡ shown_of (state_of self.now) hart.number }
    {
        self.engine.shown(hart)
    }

    /// A hart's live section, `None` exactly where it has none, as where it is armed. Each instruction of a live section but the acquire had
    /// the access bit of what it touched, and it has run from 1 to `long` instructions.
    pub fn section(&self, hart: HartId) -> Option<Live>
        requires { hart.number < self.now.config.harts }
        ensures exact { option_map sections.section_of result ≡ section_of (state_of self.now) hart.number }
        ensures covered { (section : model.Section) → section_of (state_of self.now) hart.number ≡ Some section →
            IsCoveredRun (committed self.now) hart.number (cache_of (state_of self.now) hart.number) section }
        ensures short { (section : model.Section) → section_of (state_of self.now) hart.number ≡ Some section →
            IsSectionShort self.now.config.long section }
    {
        self.engine.section_state(hart).live()
    }

    /// A hart's armed section, `None` exactly where the hart is not armed. It began at an LR of its word, whose line has
    /// the read bit; each instruction behind that touched no memory, was no SC and neither called nor stopped its hart;
    /// and it has run from 1 to 15 instructions, fewer than a section may. No section of the hart is live.
    pub fn armed(&self, hart: HartId) -> Option<Armed>
        requires { hart.number < self.now.config.harts }
        ensures exact { option_map sections.armed_of result ≡ armed_of (state_of self.now) hart.number }
        ensures alone { IsSome result → section_of (state_of self.now) hart.number ≡ None }
        ensures runs { (armed : model.Armed) → armed_of (state_of self.now) hart.number ≡ Some armed →
            IsArmedRun (committed self.now) hart.number (cache_of (state_of self.now) hart.number) armed }
        ensures short { (armed : model.Armed) → armed_of (state_of self.now) hart.number ≡ Some armed →
            IsShortArmed self.now.config.long armed }
    {
        self.engine.section_state(hart).armed()
    }

    /// A hart's section with its views and its buffered stores, which are none where no section is live. Where one is,
    /// its view is what its private run has come to, its buffered stores over committed memory, with the acquire's new
    /// value in the lock word, are what the section shows of memory, and each line that it stored to has the write bit.
    /// Their bytes are those that [`Machine::lent`] lends with it. Where the hart is armed, its view is what its private
    /// run has come to, and the value that is kept is that of its word.
    pub fn section_state(&self, hart: HartId) -> &Section
        requires { hart.number < self.now.config.harts }
        ensures live { result.now.live ≡ section_of (state_of self.now) hart.number }
        ensures armed { option_map (λ reserved. reserved.armed) result.now.armed
            ≡ armed_of (state_of self.now) hart.number }
        ensures keeps_armed { (reserved : sections.Reserved) → result.now.armed ≡ Some reserved →
            KeepsArmed (committed self.now) hart.number reserved.armed reserved.old result.now.marks.present }
        ensures run { (section : model.Section) → result.now.live ≡ Some section →
            TellsRunSomewhere (state_of self.now) (committed self.now) hart.number section result.now }
        ensures marked { (section : model.Section) (pool : Pooled) → result.now.live ≡ Some section →
            HoldsMarked (cache_of (state_of self.now) hart.number) (sections.hold_in pool result.now).entries }
        ensures nothing { result.now.live ≡ None → result.now.hold.entries ≡ [] }
        ensures view { committed_of result.now.marks ≡ view_of (committed self.now) hart.number }
        ensures shown { result.now.marks.present ≡ shown_of (state_of self.now) hart.number }
    {
        self.engine.section_state(hart)
    }

    /// What a hart keeps beside the bus: its section, its predictor, its fallback flag and its count of tries.
    pub fn own(&self, hart: HartId) -> &HartState
        requires { hart.number < self.now.config.harts }
        ensures { HasOwn result.now (hart_of (state_of self.now) hart.number) }
    {
        self.engine.own(hart)
    }

    /// What a hart comes to next, by the view that it sees itself.
    pub fn next_action(&self, hart: HartId) -> Action
        requires { hart.number < self.now.config.harts }
        ensures exact { result ≡ action_of (state_of self.now).committed (shown_of (state_of self.now) hart.number) }
        ensures in_place { IsInPlace (memory_of self.now.program) (room_of (state_of self.now).committed) result }
    {
        self.engine.next_action(hart)
    }

    /// What a hart has asked of the bus.
    pub fn request(&self, hart: HartId) -> Asked
        requires { hart.number < self.now.config.harts }
        ensures { numbered_asked result ≡
            asking (raised_of (state_of self.now) hart.number) (ordered_of (state_of self.now) hart.number) }
    {
        self.engine.request(hart)
    }

    /// The bus, with main memory: it has a cache of each hart, with the lines and the letters that the definition's has.
    /// Main memory has the program's bytes, and over them each line that was written back. What the copies tell is said
    /// by `lent`, since their bytes are in the pool.
    pub fn bus(&self) -> &Bus
        ensures harts { length (bus_state result.now).agents ≡ self.now.config.harts }
        ensures ready { IsReady (bus_state result.now) }
        ensures shows { Shows (bus_state result.now) (state_of self.now) }
        ensures memory { (bus_state result.now).copies.lines ≡ main_lines self.now }
    {
        self.engine.bus()
    }

    /// The pool in whose slots the copies of all caches and the buffered stores of all sections have their bytes. Each
    /// hart's cache is owner h of it, and its buffered stores are owner 8 + h; as many slots are out of each as it has
    /// lines.
    pub fn pool(&self) -> &Pool
        ensures { LendsState result.now (state_of self.now) }
    {
        self.engine.pool()
    }

    /// The pool, the bus and a hart's section together, so that the bytes of a copy or of a buffered store may be read.
    /// Copies and main memory tell the committed bytes of each line, and the stores are those of the section.
    pub fn lent(&self, hart: HartId) -> Lent<'_>
        requires { hart.number < self.now.config.harts }
        ensures ready { IsReady (bus_state result.bus.now) }
        ensures shows { Shows (bus_state result.bus.now) (state_of self.now) }
        ensures told { Tells result.pool.now (bus_state result.bus.now) (line_of (committed self.now)) }
        ensures section { LendsSection result.pool.now (state_of self.now) hart.number result.section.now }
        ensures run { (section : model.Section) → result.section.now.live ≡ Some section →
            TellsRun result.pool.now (state_of self.now) (committed self.now) hart.number section result.section.now }
    {
        Lent {
            pool: self.engine.pool(),
            bus: self.engine.bus(),
            section: self.engine.section_state(hart),
        }
    }

    /// The committed byte at an address, or none outside memory.
    pub fn byte(&self, address: u32) -> Option<u8>
        ensures none_exactly_outside { IsNone result ↔ (holds (memory_of self.now.program) address 1 ≡ false) }
        ensures exact { IfSome result (λ byte.
            byte ≡ byte_in self.now.program.base (committed self.now).bytes address) }
    {
        self.engine.byte(address)
    }
}

/// What memory has before the first step is bytes.
fn are_bytes(bytes: &[u8])
    ensures { AreBytes bytes.now }
{}

impl Chronicled for Machine {
    ghost use Rattle.machine.specs.Opening.{opening_of};

    ghost opening = { λ machine. opening_of machine.program machine.config };

    ghost entries = { λ machine. machine.entries };

    fn length(&self) -> u32 {
        self.history.length()
    }

    fn entry(&self, place: u32) -> Entry {
        self.history.entry(place)
    }
}
