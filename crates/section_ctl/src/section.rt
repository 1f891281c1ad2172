ghost use Rattle.std.specs.Prelude.{◌≡◌, ◌≤◌, ◌<◌, ◌+◌, ◌%◌, [], IfOk, IfSome, IsSome, ℕ};
ghost use Rattle.std.specs.Prelude.{◌||◌, None, Some, is_some, option_map, true};
ghost use Rattle.std.specs.Borrow.{sem};
ghost use Rattle.cache_sets.specs.Slotted as caches;
ghost use Rattle.residency.specs.Cache.{write_bits_of};
ghost use Rattle.el_model.specs.Upcoming.{touch_of};
ghost use Rattle.line_pool.specs.Others.{LeavesOthers};
ghost use Rattle.line_pool.specs.Pooled.{Pooled};
ghost use Rattle.reg_mark.specs.Marks.{committed_of, marks_unreserved};
ghost use Rattle.rv_alu.specs.Action.{action_at};
ghost use Rattle.rv_alu.specs.Execution.{loads};
ghost use Rattle.rv_alu.specs.Footprint.{footprint};
ghost use Rattle.rv_alu.specs.declared.view.HartStatus.TheVariants.{Running};
ghost use Rattle.rv_word.specs.Decoding.{decoded};
ghost use Rattle.section_ctl.specs.Releases.{IsReleaseInsn, release_of_insn};
ghost use Rattle.section_ctl.specs.State.{reserved_of, section_of};
ghost use Rattle.section_view.specs.KeptRun.{HoldsMarked};
ghost use Rattle.section_view.specs.Release.{IsReleaseAction};
ghost use Rattle.write_hold.specs.Slotted as holds;

use crate::armed::{Armed, Reserved};
use crate::drain::commit_into;
use crate::live::Live;
use crate::private::Private;
use crate::run::{run_over, touch};
use cache_sets::Sets;
use el_base::{Config, LineAddr, NoMemory, line_of};
use line_pool::Pool;
use reg_mark::Marked;
use rv_alu::{Action, HartView, Span};
use rv_word::{AmoOp, Insn, Reg, decode};
use std::alloc::Global;
use std::marker::Model;
use write_hold::Hold;

/// One hart's live section, its armed one, or neither. Contracts see it as `SectionState`: the hart's views, its
/// buffered stores, and the section as the machine's definition has it.
#[derive(Drop)]
pub struct Section {
    marks: Marked,
    hold: Hold,
    private: Private,
}

impl Model for Section {
    ghost use Rattle.section_ctl.specs.State.{SectionState, SectionStands, shown_state};

    ghost Value = { SectionState };

    ghost view = { λ s. shown_state s.marks s.hold s.private };

    ghost invariant = { λ s. SectionStands s.marks s.hold s.private };
}

impl Section {
    ghost use Rattle.section_ctl.specs.Calls.{
      HasCommitted,
      HasContinued,
      HasReleased,
      HasReleasedBy,
      HasRun,
      IsCoveredIn,
      MayBuffer,
      MayContinue,
      armed_state,
      begun_state,
      elided_state,
      has_written,
      idle_state,
      let_go_state,
      rolled_back_state,
      run_of,
    };
    ghost use Rattle.section_ctl.specs.Lending.{LendsView};
    ghost use Rattle.section_ctl.specs.Lent.{LeavesBeside, LendsBoth};
    ghost use Rattle.section_ctl.specs.PrivateRuns.{
      ArmsRun,
      BeginsRun,
      CommitsCode,
      CommitsRun,
      ContinuesRun,
      ElidesRun,
      GoesOnRun,
      LetsGoRun,
    };
    ghost use Rattle.section_ctl.specs.State.{armed_of, hold_in};

    /// A hart's view without a section, with room for the stores that a section of the
    /// configuration may make, whose slots are those of this owner of a pool.
    pub fn make(
        alloc: Global,
        config: &Config,
        owner: u16,
        view: HartView,
    ) -> Result<Section, NoMemory>
        ensures { IfOk result (λ section.
            section ≡ idle_state view (record { limit = config.now.lines; owner = owner; entries = [] })) }
    {
        Ok(Section {
            marks: Marked::new(view),
            hold: Hold::make(alloc, config, owner)?,
            private: Private::Nothing,
        })
    }

    /// The live or the armed section's view, else the committed one.
    pub fn shown(&self) -> &HartView
        ensures { result.now ≡ self.now.marks.present }
    {
        self.marks.present()
    }

    /// The committed view: with a live section, that of before its acquire, and with an armed one that of before
    /// its LR.
    pub fn committed(&self) -> &HartView
        ensures { result.now ≡ committed_of self.now.marks }
    {
        self.marks.committed()
    }

    /// The committed view, to be written. There is no section, neither live nor armed.
    pub fn plain_mut(&mut self) -> &mut HartView
        requires none { self.old.live ≡ None }
        requires unarmed { self.old.armed ≡ None }
        ensures* lends { sem 𝓛 (LendsView self.entry result) }
        ensures value { result.now ≡ self.old.marks.present }
    {
        &mut self.marks.present
    }

    /// Ends the committed view's reservation where it is of a word on this line. The view of a live or an armed
    /// section keeps its own.
    pub fn unreserve(&mut self, line: LineAddr)
        ensures { self.new ≡ record self.old { marks = marks_unreserved line.number self.old.marks } }
    {
        self.marks.unreserve(line);
    }

    /// The live section; `None` exactly where none is live, as where one is armed.
    pub fn live(&self) -> Option<Live>
        ensures exact { option_map section_of result ≡ self.now.live }
        ensures alone { IsSome self.now.live → self.now.armed ≡ None }
    {
        match self.private {
            Private::Live(live) => Some(live),
            Private::Armed(_) | Private::Nothing => None,
        }
    }

    /// The armed section; `None` exactly where the hart is not armed.
    pub fn armed(&self) -> Option<Armed>
        ensures exact { option_map armed_of result ≡ option_map (λ reserved. reserved.armed) self.now.armed }
        ensures alone { IsSome self.now.armed → self.now.live ≡ None }
    {
        match self.private {
            Private::Armed(reserved) => Some(reserved.armed),
            Private::Live(_) | Private::Nothing => None,
        }
    }

    /// What the live section has stored; nothing where none is live.
    #[tactic(auto, using(crate::proofs::Laws::Begins::nothing_held))]
    pub fn hold(&self) -> &Hold
        ensures exact { result.now ≡ self.now.hold }
        ensures nothing { self.now.live ≡ None → result.now.entries ≡ [] }
    {
        &self.hold
    }

    /// Whether the live section has written a line: its lock word's, or one that is held. At its commit
    /// the other harts lose their reservations of words on these lines.
    pub fn wrote(&self, line: LineAddr) -> bool
        ensures { (pool : Pooled) →
            result ≡ has_written self.now.live (hold_in pool self.now).entries line.number }
    {
        match self.private {
            Private::Live(live) => line.number == line_of(live.word).number || self.hold.has(line),
            Private::Armed(_) | Private::Nothing => false,
        }
    }

    /// A section begins at an acquire, which is elided: a swap of the lock word at `word` that finds
    /// `old` there, puts it into `rd`, and would store `new`. It is the first of the section's
    /// instructions, and the view before it is the checkpoint.
    pub fn begin(&mut self, word: u32, old: u32, new: u32, rd: Reg)
        requires none { self.old.live ≡ None }
        requires unarmed { self.old.armed ≡ None }
        requires running { self.old.marks.present.status ≡ Running }
        requires aligned { word % 4 ≡ 0 }
        ensures begun { self.new ≡ begun_state self.old word old new rd.number }
        ensures shows { BeginsRun self.old self.new (record { count = 1; word = word; old = old; new = new }) rd }
    {
        self.marks.mark();
        let swap = Action::Amo {
            op: AmoOp::Swap,
            rd,
            address: word,
            source: new,
        };
        swap.perform(&mut self.marks.present, Some(old));
        self.private = Private::Live(Live {
            count: 1,
            word,
            old,
            new,
        });
    }

    /// A section arms at an LR of `word`, which finds `old` there and puts it into `rd`. The LR is the first of the
    /// section's instructions, and the view before it is the checkpoint.
    pub fn arm(&mut self, word: u32, old: u32, rd: Reg)
        requires none { self.old.live ≡ None }
        requires unarmed { self.old.armed ≡ None }
        requires running { self.old.marks.present.status ≡ Running }
        requires aligned { word % 4 ≡ 0 }
        ensures armed { self.new ≡ armed_state self.old word old rd.number }
        ensures shows { ArmsRun self.old self.new word old rd }
    {
        self.marks.mark();
        let reserve = Action::LoadReserved { rd, address: word };
        reserve.perform(&mut self.marks.present, Some(old));
        self.private = Private::Armed(Reserved {
            armed: Armed { count: 1, word },
            old,
        });
    }

    /// The armed section's acquire is elided: an SC, which succeeds, puts 0 into `rd` and would store `new` in the
    /// section's word. The armed section becomes a live one, of one instruction more, with the value that its LR
    /// found as the old one. The checkpoint stays at the LR.
    pub fn begin_armed(&mut self, new: u32, rd: Reg)
        requires { IsSome self.old.armed }
        ensures begun { IfSome self.old.armed (λ reserved.
            self.new ≡ elided_state self.old reserved new rd.number) }
        ensures shows { IfSome self.old.armed (λ reserved. ElidesRun self.old self.new reserved new rd) }
    {
        let Private::Armed(reserved) = self.private else {
            unreachable!()
        };
        let Reserved { armed, old } = reserved;
        let conditional = Action::StoreConditional {
            rd,
            address: armed.word,
            value: new,
        };
        conditional.perform(&mut self.marks.present, None);
        self.private = Private::Live(Live {
            count: armed.count + 1,
            word: armed.word,
            old,
            new,
        });
    }

    /// Lets the armed section go: its view is the committed one, and there is no section.
    pub fn let_go(&mut self)
        requires { IsSome self.old.armed }
        ensures exact { self.new ≡ let_go_state self.old }
        ensures shows { IfSome self.old.armed (λ reserved. LetsGoRun self.old self.new reserved) }
    {
        self.marks.keep(); // the instructions since the LR take effect
        self.private = Private::Nothing;
    }

    /// Runs an action in the live or the armed section, after it was decoded ([`Action::at`]). In a live one the action
    /// neither calls nor stops its hart, stores to no byte of the lock word, and what it touches has its bit in
    /// the hart's cache; each held line has the write bit there, and no more lines have it than a section
    /// may write. In an armed one the action is quiet: it touches no memory, is no SC, and neither calls nor stops its
    /// hart. One pool lends the section and the cache, and leaves what other owners have of it.
    pub fn spec_action(&mut self, pool: &mut Pool, sets: &mut Sets, action: Action)
        requires either { (is_some self.old.live || is_some self.old.armed) ≡ true }
        requires lent { LendsBoth pool.old sets.old self.old.hold }
        requires buffered { IfSome self.old.live (λ section.
            MayBuffer pool.old self.old section (caches.lent pool.old sets.old) action) }
        requires counted { IfSome self.old.live (λ section. section.count + 1 < 4294967296) }
        requires quiet { IfSome self.old.armed (λ reserved. MayContinue reserved action) }
        requires marked { HoldsMarked sets.old.residency (hold_in pool.old self.old).entries }
        requires few { write_bits_of sets.old.residency ≤ self.old.hold.limit }
        ensures ran { IfSome self.old.live (λ section. HasRun pool.old pool.new self.old self.new section
            (run_of pool.old self.old section (caches.lent pool.old sets.old) action)) }
        ensures continued { IfSome self.old.armed (λ reserved. HasContinued self.old self.new reserved action) }
        ensures cache { IsCoveredIn (caches.lent pool.old sets.old) (caches.lent pool.new sets.new)
            (touch_of (footprint action)) }
        ensures marked { HoldsMarked sets.new.residency (hold_in pool.new self.new).entries }
        ensures shows { IfSome self.old.live (λ section. GoesOnRun pool.old pool.new self.old self.new section
            (caches.lent pool.old sets.old) action) }
        ensures shows_armed { IfSome self.old.armed (λ reserved. ContinuesRun self.old self.new reserved action) }
        ensures lent { LendsBoth pool.new sets.new self.new.hold }
        ensures owners { (self.new.hold.owner ≡ self.old.hold.owner) × (sets.new.owner ≡ sets.old.owner) }
        ensures beside { LeavesBeside sets.old.owner self.old.hold.owner pool.old pool.new }
        ensures armed_pool { IsSome self.old.armed → pool.new ≡ pool.old }
    {
        match self.private {
            Private::Live(live) => self.run_live(pool, live, sets, action),
            Private::Armed(reserved) => self.run_armed(reserved, action),
            Private::Nothing => unreachable!(),
        }
    }

    /// Runs an action in the live section.
    fn run_live(&mut self, pool: &mut Pool, live: Live, sets: &mut Sets, action: Action)
        requires is { self.old.live ≡ Some (section_of live) }
        requires lent { LendsBoth pool.old sets.old self.old.hold }
        requires buffered { MayBuffer pool.old self.old (section_of live) (caches.lent pool.old sets.old) action }
        requires counted { live.count + 1 < 4294967296 }
        requires marked { HoldsMarked sets.old.residency (hold_in pool.old self.old).entries }
        requires few { write_bits_of sets.old.residency ≤ self.old.hold.limit }
        ensures ran { HasRun pool.old pool.new self.old self.new (section_of live)
            (run_of pool.old self.old (section_of live) (caches.lent pool.old sets.old) action) }
        ensures cache { IsCoveredIn (caches.lent pool.old sets.old) (caches.lent pool.new sets.new)
            (touch_of (footprint action)) }
        ensures lent { LendsBoth pool.new sets.new self.new.hold }
        ensures owners { (self.new.hold.owner ≡ self.old.hold.owner) × (sets.new.owner ≡ sets.old.owner) }
        ensures others { LeavesOthers self.old.hold.owner pool.old pool.new }
    {
        run_over(
            pool,
            &mut self.hold,
            &mut self.marks.present,
            sets,
            live,
            action,
        );
        touch(sets, action);
        self.private = Private::Live(Live {
            count: live.count + 1,
            ..live
        });
    }

    /// Runs a quiet action in the armed section. What it leaves does not depend on memory.
    fn run_armed(&mut self, reserved: Reserved, action: Action)
        requires is { self.old.armed ≡ Some (reserved_of reserved) }
        requires quiet { MayContinue (reserved_of reserved) action }
        ensures { HasContinued self.old self.new (reserved_of reserved) action }
    {
        action.perform(&mut self.marks.present, None);
        let armed = Armed {
            count: reserved.armed.count + 1,
            ..reserved.armed
        };
        self.private = Private::Armed(Reserved { armed, ..reserved });
    }

    /// Runs the instruction of a word in the live or the armed section, whose action is as [`Section::spec_action`]
    /// asks. Such an action does not depend on the room of the output.
    pub fn spec_insn(&mut self, pool: &mut Pool, sets: &mut Sets, word: u32, span: Span)
        requires either { (is_some self.old.live || is_some self.old.armed) ≡ true }
        requires lent { LendsBoth pool.old sets.old self.old.hold }
        requires buffered { IfSome self.old.live (λ section. MayBuffer pool.old self.old section
            (caches.lent pool.old sets.old) (action_at (Some word) self.old.marks.present span 0)) }
        requires counted { IfSome self.old.live (λ section. section.count + 1 < 4294967296) }
        requires quiet { IfSome self.old.armed (λ reserved.
            MayContinue reserved (action_at (Some word) self.old.marks.present span 0)) }
        requires marked { HoldsMarked sets.old.residency (hold_in pool.old self.old).entries }
        requires few { write_bits_of sets.old.residency ≤ self.old.hold.limit }
        ensures ran { (room : ℕ) → IfSome self.old.live (λ section. HasRun pool.old pool.new self.old self.new section
            (run_of pool.old self.old section (caches.lent pool.old sets.old)
            (action_at (Some word) self.old.marks.present span room))) }
        ensures continued { (room : ℕ) → IfSome self.old.armed (λ reserved.
            HasContinued self.old self.new reserved (action_at (Some word) self.old.marks.present span room)) }
        ensures cache { IsCoveredIn (caches.lent pool.old sets.old) (caches.lent pool.new sets.new)
            (touch_of (footprint (action_at (Some word) self.old.marks.present span 0))) }
        ensures marked { HoldsMarked sets.new.residency (hold_in pool.new self.new).entries }
        ensures shows { (room : ℕ) → IfSome self.old.live (λ section. GoesOnRun pool.old pool.new self.old self.new section
            (caches.lent pool.old sets.old) (action_at (Some word) self.old.marks.present span room)) }
        ensures shows_armed { (room : ℕ) → IfSome self.old.armed (λ reserved.
            ContinuesRun self.old self.new reserved (action_at (Some word) self.old.marks.present span room)) }
        ensures lent { LendsBoth pool.new sets.new self.new.hold }
        ensures owners { (self.new.hold.owner ≡ self.old.hold.owner) × (sets.new.owner ≡ sets.old.owner) }
        ensures beside { LeavesBeside sets.old.owner self.old.hold.owner pool.old pool.new }
        ensures armed_pool { IsSome self.old.armed → pool.new ≡ pool.old }
    {
        let action = Action::at(Some(word), &self.marks.present, span, 0);
        self.spec_action(pool, sets, action);
    }

    /// Runs the release, an action that stores the old value in the lock word, and commits: what is held
    /// is put into the cache, whose written lines become modified, and no section is live. Each held line
    /// has the write bit in the hart's cache. One pool lends the section and the cache, and leaves what other owners
    /// have of it.
    pub fn commit_action(&mut self, pool: &mut Pool, sets: &mut Sets, action: Action)
        requires live { IsSome self.old.live }
        requires lent { LendsBoth pool.old sets.old self.old.hold }
        requires release { IfSome self.old.live (λ section. IsReleaseAction section.word section.old action) }
        requires marked { HoldsMarked sets.old.residency (hold_in pool.old self.old).entries }
        ensures released { IfSome self.old.live (λ section. HasReleased pool.old self.old self.new section action) }
        ensures cache { HasCommitted (caches.lent pool.old sets.old) (caches.lent pool.new sets.new)
            (hold_in pool.old self.old).entries }
        ensures shows { IfSome self.old.live (λ section. CommitsRun pool.old self.old self.new section
            (caches.lent pool.old sets.old) (caches.lent pool.new sets.new) action) }
        ensures lent { LendsBoth pool.new sets.new self.new.hold }
        ensures owners { (self.new.hold.owner ≡ self.old.hold.owner) × (sets.new.owner ≡ sets.old.owner) }
        ensures beside { LeavesBeside sets.old.owner self.old.hold.owner pool.old pool.new }
    {
        let Private::Live(live) = self.private else {
            unreachable!()
        };
        let found = found_by(action, live.new);
        action.perform(&mut self.marks.present, found);
        self.marks.keep();
        commit_into(pool, &mut self.hold, sets);
        self.private = Private::Nothing;
    }

    /// Runs the release, the instruction of a word that stores or swaps the old value into the lock word,
    /// and commits, as [`Section::commit_action`] does.
    pub fn commit(&mut self, pool: &mut Pool, sets: &mut Sets, code: u32)
        requires live { IsSome self.old.live }
        requires lent { LendsBoth pool.old sets.old self.old.hold }
        requires release { IsReleaseInsn (decoded code) }
        requires marked { HoldsMarked sets.old.residency (hold_in pool.old self.old).entries }
        ensures released { IfSome self.old.live (λ section. HasReleasedBy self.old self.new section (decoded code)) }
        ensures cache { HasCommitted (caches.lent pool.old sets.old) (caches.lent pool.new sets.new)
            (hold_in pool.old self.old).entries }
        ensures shows { IfSome self.old.live (λ section. CommitsCode pool.old self.old self.new section
            (caches.lent pool.old sets.old) (caches.lent pool.new sets.new) code) }
        ensures lent { LendsBoth pool.new sets.new self.new.hold }
        ensures owners { (self.new.hold.owner ≡ self.old.hold.owner) × (sets.new.owner ≡ sets.old.owner) }
        ensures beside { LeavesBeside sets.old.owner self.old.hold.owner pool.old pool.new }
    {
        let Private::Live(live) = self.private else {
            unreachable!()
        };
        self.commit_action(pool, sets, release_by(code, live));
    }

    /// Goes back to the checkpoint, and forgets what the section stored. A section is live.
    pub fn roll_back(&mut self, pool: &mut Pool)
        requires live { IsSome self.old.live }
        requires lent { holds.IsLent pool.old self.old.hold }
        ensures exact { self.new ≡ rolled_back_state self.old }
        ensures lent { holds.IsLent pool.new self.new.hold }
        ensures others { LeavesOthers self.old.hold.owner pool.old pool.new }
    {
        self.marks.back();
        self.hold.forget(pool);
        self.private = Private::Nothing;
    }
}

/// What an action loads where it loads this value, if it loads anything.
fn found_by(action: Action, value: u32) -> Option<u32>
    ensures { result ≡ option_map (λ load. value) (loads action) }
{
    match action.loads() {
        Some(_) => Some(value),
        None => None,
    }
}

/// What the release of a section does whose instruction is this word's.
fn release_by(code: u32, live: Live) -> Action
    ensures { result ≡ release_of_insn (decoded code) live.word live.old }
{
    match decode(code) {
        Some(Insn::Amo { rd, .. }) => Action::Amo {
            op: AmoOp::Swap,
            rd,
            address: live.word,
            source: live.old,
        },
        _ => Action::Store {
            address: live.word,
            len: 4,
            value: live.old,
        },
    }
}
