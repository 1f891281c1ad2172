ghost use Rattle.std.specs.Prelude.{◌≡◌, ◌≤◌, ◌<◌, ◌+◌, ◌-◌, ◌%◌, ◌||◌, ℕ, false, true, IfOk, IfSome, IsSome};
ghost use Rattle.std.specs.Prelude.{None, Some, is_some};
ghost use Rattle.std.specs.Option.{option_map};
ghost use Rattle.std.specs.Borrow.{sem};
ghost use Rattle.cache_sets.specs.Slotted as caches;
ghost use Rattle.residency.specs.Cache.{write_bits_of};
ghost use Rattle.el_model.specs.Losses.{one_more_lost};
ghost use Rattle.el_model.specs.Plain as plain;
ghost use Rattle.el_model.specs.State.{Hart, ModelState};
ghost use Rattle.el_model.specs.Upcoming.{Swap as Exchanged, next_exchange, touch_of};
ghost use Rattle.line_pool.specs.Others.{LeavesOthers};
ghost use Rattle.line_pool.specs.Pooled.{Pooled};
ghost use Rattle.reg_mark.specs.Marks.{committed_of};
ghost use Rattle.rv_alu.specs.Footprint.{footprint};
ghost use Rattle.rv_alu.specs.declared.view.HartStatus.TheVariants.{Running};
ghost use Rattle.rv_flat.specs.FlatState.{view_of};
ghost use Rattle.section_ctl.specs.Calls.{HasCommitted, HasContinued, HasReleased, HasRun, IsCoveredIn, MayBuffer};
ghost use Rattle.section_ctl.specs.Calls.{MayContinue, has_written, run_of};
ghost use Rattle.section_ctl.specs.Lent.{LeavesBeside, LendsBoth};
ghost use Rattle.section_ctl.specs.PrivateRuns.{ArmsRun, BeginsRun, CommitsRun, ContinuesRun, ElidesRun, GoesOnRun};
ghost use Rattle.section_ctl.specs.PrivateRuns.{LetsGoRun};
ghost use Rattle.section_ctl.specs.State.{hold_in};
ghost use Rattle.section_ctl.specs.KeptRun.{HoldsMarked};
ghost use Rattle.section_ctl.specs.Release.{IsReleaseAction};
ghost use Rattle.step_rules.specs.Actions.{IsNext, numbered_swap};
ghost use Rattle.write_hold.specs.Slotted as holds;

use cache_sets::Sets;
use el_base::{Cause, Config, LineAddr, Mode, NoMemory};
use line_pool::Pool;
use pair_table::{PairTable, Verdict};
use rv_alu::{Action, HartView};
use rv_word::Reg;
use section_ctl::Section;
use std::alloc::Global;
use std::marker::Model;
use step_rules::{Swap, is_conditional, seen_by};

/// How many sections in a row may be lost without stamps before the lock is taken.
const MOST_TRIES: u8 = 4;

/// How far a place must be trusted for its swap to be elided.
const LEAST_CONFIDENCE: u8 = 2;

/// What a hart keeps beside the bus: its views with its live or armed section, if it has one; the pc of the last LR
/// that it ran outside of a section, or that was let go; its predictor; whether its next candidate acquire takes the
/// lock; and how many sections in a row it has lost, at most 3.
#[derive(Drop)]
pub struct HartState {
    section: Section,
    last_lr: Option<u32>,
    predictor: PairTable,
    fallback: bool,
    tries: u8,
}

impl Model for HartState {
    ghost use Rattle.std.specs.Prelude.{◌<◌};
    ghost use Rattle.hart_state.specs.Own.{OwnState};

    ghost Value = { OwnState };

    ghost view = { λ s. record {
      section = s.section;
      last_lr = s.last_lr;
      predictor = s.predictor;
      fallback = s.fallback;
      tries = s.tries;
    } };

    ghost invariant = { λ s. s.tries < 4 };
}

impl HartState {
    ghost use Rattle.hart_state.specs.Own.{HasOwn, committed_pc, new_own};
    ghost use Rattle.hart_state.specs.Deeds.{
      CountsOn,
      IsNextStep,
      armed_own,
      began_own,
      buffered_own,
      candidate_own,
      committed_own,
      elided_own,
      let_go_own,
      lost_own,
      own_acquire_pc,
      own_may_elide,
      ran_own,
      rolled_back_own,
      standing_own,
      unreserved_own,
    };
    ghost use Rattle.hart_state.specs.Lending.{LendsOwnView};

    /// A hart before its first event, with a view: no section, nothing learnt, nothing lost. It has room for the
    /// stores that a section of the configuration may make, whose slots are those of this owner of a pool.
    pub fn make(
        alloc: Global,
        config: &Config,
        owner: u16,
        view: HartView,
    ) -> Result<HartState, NoMemory>
        ensures { IfOk result (λ own. own ≡ new_own view config.now.lines owner) }
    {
        Ok(HartState {
            section: Section::make(alloc, config, owner, view)?,
            last_lr: None,
            predictor: PairTable::new(),
            fallback: false,
            tries: 0,
        })
    }

    /// The hart's section, with its views and its buffered stores.
    pub fn section(&self) -> &Section
        ensures { result.now ≡ self.now.section }
    {
        &self.section
    }

    /// The pc of the last LR that the hart ran outside of a section, or that was let go; `None` before the first.
    pub fn last_lr(&self) -> Option<u32>
        ensures { result ≡ self.now.last_lr }
    {
        self.last_lr
    }

    /// What the hart has learnt of acquires.
    pub fn predictor(&self) -> &PairTable
        ensures { result.now ≡ self.now.predictor }
    {
        &self.predictor
    }

    /// Whether the hart's next candidate acquire takes the lock.
    pub fn fallback(&self) -> bool
        ensures { result ≡ self.now.fallback }
    {
        self.fallback
    }

    /// How many sections in a row the hart has lost, without stamps.
    pub fn tries(&self) -> u8
        ensures { result ≡ self.now.tries }
    {
        self.tries
    }

    /// The committed view: with a live section, that of before its acquire, or before its LR where an SC acquires; with
    /// an armed one, that of before its LR.
    pub fn committed(&self) -> &HartView
        ensures { result.now ≡ committed_of self.now.section.marks }
    {
        self.section.committed()
    }

    /// The live or the armed section's view, else the committed one.
    pub fn shown(&self) -> &HartView
        ensures { result.now ≡ self.now.section.marks.present }
    {
        self.section.shown()
    }

    /// The committed view, to be written. There is no section, neither live nor armed.
    pub fn view_mut(&mut self) -> &mut HartView
        requires none { self.old.section.live ≡ None }
        requires unarmed { self.old.section.armed ≡ None }
        ensures* lends { sem 𝓛 (LendsOwnView self.entry result) }
        ensures value { result.now ≡ self.old.section.marks.present }
    {
        self.section.plain_mut()
    }

    /// Ends the committed view's reservation where it is of a word on this line.
    pub fn unreserve(&mut self, line: LineAddr)
        ensures { self.new ≡ unreserved_own line.number self.old }
    {
        self.section.unreserve(line);
    }

    /// Whether the live section has written a line: its lock word's, or one that it holds.
    pub fn wrote(&self, line: LineAddr) -> bool
        ensures { (pool : Pooled) →
            result ≡ has_written self.now.section.live (hold_in pool self.now.section).entries line.number }
    {
        self.section.wrote(line)
    }

    /// Whether a swap at the committed pc may be elided, and whether the hart may arm at an LR there: the mode elides,
    /// the fallback flag is off, and the place has a confidence of at least 2. (That a predictor chooses the acquires, and
    /// that after some losses the lock is taken: 'Speculative Lock Elision'; the numbers are this project's profile.)
    pub fn may_elide(&self, mode: Mode) -> bool
        ensures own { result ≡ own_may_elide mode self.now }
        ensures hart { (hart : Hart) → HasOwn self.now hart →
            result ≡ plain.may_elide mode hart (committed_pc self.now) }
    {
        elides(mode)
            && !self.fallback
            && self.predictor.confidence(self.committed().pc) >= LEAST_CONFIDENCE
    }

    /// The next instruction, at `pc`, runs outside of a section; the view is written through `view_mut`,
    /// before or after. The watch, if one stands, sees it. A candidate ends the fallback, and is watched where
    /// no watch stood before: an exchange that changes its word, in a mode that elides. A swap is watched from `pc`, and
    /// a store conditional from the last LR, if there was one. `swap` is the exchange that the action is, if it is one,
    /// with the word that it finds; `reserves` says whether the instruction is an LR ([`crate::is_load_reserved`]), whose
    /// pc is kept.
    pub fn has_run(
        &mut self,
        config: &Config,
        pc: u32,
        action: &Action,
        swap: Option<Swap>,
        reserves: bool,
    )
        ensures ran { (state : ModelState) (h : ℕ) → IsNextStep state h config.now pc action.now swap reserves →
            self.new ≡ ran_own state h self.old }
        ensures rest_stays { self.new ≡ record self.old {
          last_lr = self.new.last_lr;
          predictor = self.new.predictor;
          fallback = self.new.fallback;
        } }
        ensures counts { CountsOn self.old.predictor.watch self.new.predictor.watch }
    {
        let watched = self.predictor.watched();
        let acquire = self.acquire_pc(pc, action);
        self.see(action, config.long);
        self.meet(acquire, watched.is_some(), candidate(config.mode, swap));
        if reserves {
            self.last_lr = Some(pc);
        }
    }

    /// A section begins at an acquire, which is elided: a swap that puts what it finds into `rd`. A watch is
    /// dropped without a verdict.
    pub fn begin(&mut self, swap: Swap, rd: Reg)
        requires none { self.old.section.live ≡ None }
        requires unarmed { self.old.section.armed ≡ None }
        requires running { self.old.section.marks.present.status ≡ Running }
        requires aligned { swap.word % 4 ≡ 0 }
        ensures own { self.new ≡ began_own swap.word swap.old swap.new rd.number self.old }
        ensures shows { BeginsRun self.old.section self.new.section
            (record { count = 1; word = swap.word; old = swap.old; new = swap.new }) rd }
    {
        self.section.begin(swap.word, swap.old, swap.new, rd);
        self.predictor.unwatch();
    }

    /// A section arms at an LR of a word, which finds `old` there and puts it into `rd`.
    pub fn arm(&mut self, word: u32, old: u32, rd: Reg)
        requires none { self.old.section.live ≡ None }
        requires unarmed { self.old.section.armed ≡ None }
        requires running { self.old.section.marks.present.status ≡ Running }
        requires aligned { word % 4 ≡ 0 }
        ensures own { self.new ≡ armed_own word old rd.number self.old }
        ensures shows { ArmsRun self.old.section self.new.section word old rd }
    {
        self.section.arm(word, old, rd);
    }

    /// The armed section's acquire is elided: an SC that would store `new` and puts 0 into `rd`. A watch is dropped
    /// without a verdict.
    pub fn begin_armed(&mut self, new: u32, rd: Reg)
        requires { IsSome self.old.section.armed }
        ensures own { IfSome self.old.section.armed (λ reserved.
            self.new ≡ elided_own reserved new rd.number self.old) }
        ensures shows { IfSome self.old.section.armed (λ reserved.
            ElidesRun self.old.section self.new.section reserved new rd) }
    {
        self.section.begin_armed(new, rd);
        self.predictor.unwatch();
    }

    /// Lets the armed section go. Its LR is the last one then.
    pub fn let_go(&mut self)
        requires { IsSome self.old.section.armed }
        ensures own { self.new ≡ let_go_own self.old }
        ensures shows { IfSome self.old.section.armed (λ reserved.
            LetsGoRun self.old.section self.new.section reserved) }
    {
        self.last_lr = Some(self.committed().pc);
        self.section.let_go();
    }

    /// Runs an action in the live or the armed section, as `Section::spec_action` does.
    pub fn buffer(&mut self, pool: &mut Pool, sets: &mut Sets, action: Action)
        requires either { (is_some self.old.section.live || is_some self.old.section.armed) ≡ true }
        requires lent { LendsBoth pool.old sets.old self.old.section.hold }
        requires buffered { IfSome self.old.section.live (λ section.
            MayBuffer pool.old self.old.section section (caches.lent pool.old sets.old) action) }
        requires counted { IfSome self.old.section.live (λ section. section.count + 1 < 4294967296) }
        requires quiet { IfSome self.old.section.armed (λ reserved. MayContinue reserved action) }
        requires marked { HoldsMarked sets.old.residency (hold_in pool.old self.old.section).entries }
        requires few { write_bits_of sets.old.residency ≤ self.old.section.hold.limit }
        ensures own { self.new ≡ buffered_own self.new.section self.old }
        ensures ran { IfSome self.old.section.live (λ section.
            HasRun pool.old pool.new self.old.section self.new.section section
            (run_of pool.old self.old.section section (caches.lent pool.old sets.old) action)) }
        ensures continued { IfSome self.old.section.armed (λ reserved.
            HasContinued self.old.section self.new.section reserved action) }
        ensures cache { IsCoveredIn (caches.lent pool.old sets.old) (caches.lent pool.new sets.new)
            (touch_of (footprint action)) }
        ensures marked { HoldsMarked sets.new.residency (hold_in pool.new self.new.section).entries }
        ensures shows { IfSome self.old.section.live (λ section.
            GoesOnRun pool.old pool.new self.old.section self.new.section section
            (caches.lent pool.old sets.old) action) }
        ensures shows_armed { IfSome self.old.section.armed (λ reserved.
            ContinuesRun self.old.section self.new.section reserved action) }
        ensures lent { LendsBoth pool.new sets.new self.new.section.hold }
        ensures owners { (self.new.section.hold.owner ≡ self.old.section.hold.owner) × (sets.new.owner ≡ sets.old.owner) }
        ensures beside { LeavesBeside sets.old.owner self.old.section.hold.owner pool.old pool.new }
        ensures armed_pool { IsSome self.old.section.armed → pool.new ≡ pool.old }
    {
        self.section.spec_action(pool, sets, action);
    }

    /// Runs the release and commits, as `Section::commit_action` does. The tries begin anew, and the place
    /// of the acquire is trusted more.
    pub fn commit(&mut self, pool: &mut Pool, sets: &mut Sets, action: Action)
        requires live { IsSome self.old.section.live }
        requires lent { LendsBoth pool.old sets.old self.old.section.hold }
        requires release { IfSome self.old.section.live (λ section. IsReleaseAction section.word section.old action) }
        requires marked { HoldsMarked sets.old.residency (hold_in pool.old self.old.section).entries }
        ensures own { self.new ≡ committed_own self.new.section self.old }
        ensures released { IfSome self.old.section.live (λ section.
            HasReleased pool.old self.old.section self.new.section section action) }
        ensures cache { HasCommitted (caches.lent pool.old sets.old) (caches.lent pool.new sets.new)
            (hold_in pool.old self.old.section).entries }
        ensures shows { IfSome self.old.section.live (λ section.
            CommitsRun pool.old self.old.section self.new.section section
            (caches.lent pool.old sets.old) (caches.lent pool.new sets.new) action) }
        ensures lent { LendsBoth pool.new sets.new self.new.section.hold }
        ensures owners { (self.new.section.hold.owner ≡ self.old.section.hold.owner) × (sets.new.owner ≡ sets.old.owner) }
        ensures beside { LeavesBeside sets.old.owner self.old.section.hold.owner pool.old pool.new }
    {
        let acquire = self.committed().pc;
        self.section.commit_action(pool, sets, action);
        self.tries = 0;
        self.predictor.settle(acquire, Verdict::Up);
    }

    /// The hart rolls its section back: it is back at the checkpoint, takes the lock of the next candidate,
    /// and trusts the place of the acquire less where the cause lies with the section itself. A section is live.
    pub fn roll_back(&mut self, pool: &mut Pool, cause: Cause)
        requires live { IsSome self.old.section.live }
        requires lent { holds.IsLent pool.old self.old.section.hold }
        ensures own { self.new ≡ rolled_back_own cause self.old }
        ensures lent { holds.IsLent pool.new self.new.section.hold }
        ensures others { LeavesOthers self.old.section.hold.owner pool.old pool.new }
    {
        let acquire = self.committed().pc;
        self.section.roll_back(pool);
        self.tries = 0;
        self.fallback = true;
        match cause {
            Cause::Room | Cause::Lines => (),
            Cause::Long | Cause::Call | Cause::Mixed => {
                self.predictor.settle(acquire, Verdict::Down);
            }
        }
    }

    /// The section is lost by a conflict: the hart is back at the checkpoint. Without stamps one more try is
    /// counted, and the fourth in a row sets the fallback flag. A section is live.
    pub fn lose(&mut self, pool: &mut Pool, mode: Mode)
        requires live { IsSome self.old.section.live }
        requires lent { holds.IsLent pool.old self.old.section.hold }
        ensures own { self.new ≡ lost_own mode self.old }
        ensures lent { holds.IsLent pool.new self.new.section.hold }
        ensures others { LeavesOthers self.old.section.hold.owner pool.old pool.new }
    {
        self.section.roll_back(pool);
        match mode {
            Mode::Tlr => (),
            Mode::Plain | Mode::Sle => self.count_loss(),
        }
    }

    /// One more section in a row was lost.
    fn count_loss(&mut self)
        ensures { self.new ≡ record self.old {
          tries = (one_more_lost (standing_own self.old)).tries;
          fallback = (one_more_lost (standing_own self.old)).fallback;
        } }
    {
        self.tries += 1;
        if self.tries == MOST_TRIES {
            self.tries = 0;
            self.fallback = true;
        }
    }

    /// The watch, if one stands, sees an instruction.
    fn see(&mut self, action: &Action, long: u32)
        ensures seen { (state : ModelState) (h : ℕ) → IsNext action.now state.committed h →
            state.config.long ≡ long → self.new ≡ record self.old {
              predictor = plain.watched state h self.old.predictor self.old.predictor.watch;
            } }
        ensures rest_stays { self.new ≡ record self.old { predictor = self.new.predictor } }
        ensures unwatched { self.old.predictor.watch ≡ None → self.new ≡ self.old }
        ensures counts { CountsOn self.old.predictor.watch self.new.predictor.watch }
    {
        if let Some((word, old)) = self.predictor.watched() {
            self.predictor.saw(seen_by(action, word, old), long);
        }
    }

    /// Where an exchange by an action at `pc` begins: a store conditional at the last LR, if there was one, and a swap at
    /// its own pc.
    fn acquire_pc(&self, pc: u32, action: &Action) -> Option<u32>
        ensures { (state : ModelState) (h : ℕ) (swap : Exchanged) → IsNext action.now state.committed h →
            (view_of state.committed h).pc ≡ pc → next_exchange state.committed h ≡ Some swap →
            result ≡ own_acquire_pc state h self.now }
    {
        if is_conditional(action) {
            self.last_lr
        } else {
            Some(pc)
        }
    }

    /// An exchange is watched that begins at a pc, if one is known. No watch stands.
    fn watch_from(&mut self, acquire: Option<u32>, swap: Swap)
        requires { self.old.predictor.watch ≡ None }
        ensures { self.new ≡ record self.old {
          predictor = plain.watching_from self.old.predictor acquire (numbered_swap swap);
        } }
    {
        if let Some(pc) = acquire {
            self.predictor.watch(pc, swap.word, swap.old);
        }
    }

    /// A candidate ends the fallback, and is watched from where it begins, where no watch stood before.
    fn meet(&mut self, acquire: Option<u32>, had_watch: bool, candidate: Option<Swap>)
        requires { had_watch ≡ false → self.old.predictor.watch ≡ None }
        ensures { self.new ≡ candidate_own acquire had_watch (option_map numbered_swap candidate) self.old }
    {
        if let Some(swap) = candidate {
            self.fallback = false;
            if !had_watch {
                self.watch_from(acquire, swap);
            }
        }
    }
}

/// Whether locks are elided in a mode.
fn elides(mode: Mode) -> bool
    ensures { result ≡ plain.elides mode }
{
    match mode {
        Mode::Plain => false,
        Mode::Sle | Mode::Tlr => true,
    }
}

/// A swap, if there is one, where it is a candidate for an acquire.
fn candidate(mode: Mode, swap: Option<Swap>) -> Option<Swap>
    ensures { option_map numbered_swap result ≡ plain.if_candidate mode (option_map numbered_swap swap) }
{
    match swap {
        Some(swap) if elides(mode) && swap.changes_word() => Some(swap),
        _ => None,
    }
}
