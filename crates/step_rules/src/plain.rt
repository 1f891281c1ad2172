//! The rule of a hart outside of a section.

ghost use Rattle.std.specs.Prelude.{◌≡◌, ◌<◌, ◌≤◌, ◌%◌, Some, length};
ghost use Rattle.std.specs.Option.{option_map};
ghost use Rattle.cache_sets.specs.Slotted.{IsLent, lent};
ghost use Rattle.coherence.specs.Beginning.{line_of as committed_line};
ghost use Rattle.coherence.specs.Lent.{slotted_at};
ghost use Rattle.core_step.specs.Run.{IsAligned};
ghost use Rattle.el_model.specs.Plain as model;
ghost use Rattle.el_model.specs.State.{ModelState};
ghost use Rattle.el_model.specs.Upcoming.{next_swap, next_touch};
ghost use Rattle.rv_flat.specs.Memory.{byte_in};
ghost use Rattle.snoop.specs.Shows.{Shows, Tells, bus_state};
ghost use Rattle.step_rules.specs.Actions.{IsNext, numbered_swap, numbered_touch, swap_over};
ghost use Rattle.step_rules.specs.Rules.{
  FindsOld,
  IsOnLine,
  MayElide,
  NeverArms,
  TellsOld,
  acquiring_rule,
  arming_rule,
  beginning_rule,
  definition_plain,
  touching_rule,
};

use crate::upcoming::{Exchange, Swap, Touch, reserve_of, swap_of, touch_of};
use crate::words::word_in;
use cache_sets::Sets;
use el_base::{HartId, LineAddr, Need, line_of};
use line_pool::Pool;
use moesi::may;
use rv_alu::Action;
use snoop::Bus;

/// What a step of a hart without a live or armed section comes to, which runs and waits for no request.
#[derive(Clone, Copy, Debug, PartialEq, Eq)]
pub enum PlainRule {
    /// One instruction runs, which touches a line or none.
    Runs { touch: Option<Touch> },
    /// A request is raised.
    Misses { line: LineAddr, need: Need },
    /// The acquire is elided, and a section begins.
    Begins { swap: Swap },
    /// The LR of a word, which finds `old` there, and what comes behind it are kept private.
    Arms { word: u32, old: u32 },
}

/// The rule of a hart outside of a section, whose next action this is; `may_elide` says whether a swap at its pc may
/// be elided, and whether its hart may arm at an LR there. The pool lends the hart's cache. (The elision of an acquire
/// is the idea of 'Speculative Lock Elision', MICRO 2001.)
#[tactic(auto, using(crate::proofs::Arming::never_tells))]
pub fn plain_rule(
    pool: &Pool,
    bus: &Bus,
    hart: HartId,
    action: &Action,
    may_elide: bool,
) -> PlainRule
    requires hart_exists { hart.number < length (bus_state bus.now).copies.caches }
    requires lent { IsLent pool.now (slotted_at (bus_state bus.now).copies.caches hart.number) }
    requires aligned { IsAligned action.now }
    ensures rule { (state : ModelState) → Shows (bus_state bus.now) state →
        Tells pool.now (bus_state bus.now) (committed_line state.committed) → IsOnLine state.committed →
        IsNext action.now state.committed hart.number →
        MayElide state hart.number may_elide →
        definition_plain result ≡ model.plain_rule state hart.number }
    ensures old { (state : ModelState) → Shows (bus_state bus.now) state →
        Tells pool.now (bus_state bus.now) (committed_line state.committed) → IsOnLine state.committed →
        IsNext action.now state.committed hart.number → TellsOld result state.committed }
{
    let touch = touch_of(action);
    if may_elide {
        acquire_rule(pool, bus, hart, action, touch)
    } else {
        touch_rule(bus.sets(hart), touch)
    }
}

/// The same where an acquire that comes next may be elided.
#[tactic(auto, using(crate::proofs::Arming::never_tells))]
fn acquire_rule(
    pool: &Pool,
    bus: &Bus,
    hart: HartId,
    action: &Action,
    touch: Option<Touch>,
) -> PlainRule
    requires hart_exists { hart.number < length (bus_state bus.now).copies.caches }
    requires lent { IsLent pool.now (slotted_at (bus_state bus.now).copies.caches hart.number) }
    requires aligned { IsAligned action.now }
    ensures rule { (state : ModelState) → Shows (bus_state bus.now) state →
        Tells pool.now (bus_state bus.now) (committed_line state.committed) → IsOnLine state.committed →
        IsNext action.now state.committed hart.number →
        option_map numbered_touch touch ≡ next_touch state.committed hart.number →
        definition_plain result ≡ acquiring_rule state hart.number (next_swap state.committed hart.number) }
    ensures old { (state : ModelState) → Shows (bus_state bus.now) state →
        Tells pool.now (bus_state bus.now) (committed_line state.committed) → IsOnLine state.committed →
        IsNext action.now state.committed hart.number → TellsOld result state.committed }
{
    if let Some(exchange) = swap_of(action) {
        return swap_rule(pool, bus, hart, exchange, touch);
    }
    match reserve_of(action) {
        Some(address) => reserve_rule(pool, bus, hart, address, touch),
        None => touch_rule(bus.sets(hart), touch),
    }
}

/// The rule where the action is a swap that may be elided: it needs its line for reading; one that changes its word
/// begins a section, unless another hart waits to write there.
#[tactic(auto, using(coherence::proofs::Laws::GivenBackLaws::readable_there))]
fn swap_rule(
    pool: &Pool,
    bus: &Bus,
    hart: HartId,
    exchange: Exchange,
    touch: Option<Touch>,
) -> PlainRule
    requires hart_exists { hart.number < length (bus_state bus.now).copies.caches }
    requires lent { IsLent pool.now (slotted_at (bus_state bus.now).copies.caches hart.number) }
    requires aligned { exchange.word % 4 ≡ 0 }
    ensures never_arms { NeverArms result }
    ensures rule { (state : ModelState) → Shows (bus_state bus.now) state →
        Tells pool.now (bus_state bus.now) (committed_line state.committed) → IsOnLine state.committed →
        state.committed.base ≤ exchange.word →
        option_map numbered_touch touch ≡ next_touch state.committed hart.number →
        definition_plain result ≡ model.swap_rule state hart.number
        (Some (swap_over (byte_in state.committed.base state.committed.bytes) exchange)) }
{
    let line = line_of(exchange.word);
    let sets = bus.sets(hart);
    if !may(sets.letter(line), Need::Read) {
        return PlainRule::Misses {
            line,
            need: Need::Read,
        };
    }
    let swap = Swap {
        word: exchange.word,
        old: word_in(sets.bytes(pool, line), exchange.word),
        new: exchange.new,
    };
    begin_rule(sets, bus.is_wanted(hart, line, Need::Read), swap, touch)
}

/// The same where the hart's cache has the line, by whether another hart waits to write there.
pub(crate) fn begin_rule(sets: &Sets, wanted: bool, swap: Swap, touch: Option<Touch>) -> PlainRule
    ensures never_arms { NeverArms result }
    ensures rule { definition_plain result
        ≡ beginning_rule sets.now.residency wanted (numbered_swap swap) (option_map numbered_touch touch) }
{
    if !swap.changes_word() {
        touch_rule(sets, touch)
    } else if wanted {
        PlainRule::Misses {
            line: line_of(swap.word),
            need: Need::Read,
        }
    } else {
        PlainRule::Begins { swap }
    }
}

/// The rule where the action is an LR at which its hart may arm.
fn reserve_rule(
    pool: &Pool,
    bus: &Bus,
    hart: HartId,
    address: u32,
    touch: Option<Touch>,
) -> PlainRule
    requires hart_exists { hart.number < length (bus_state bus.now).copies.caches }
    requires lent { IsLent pool.now (slotted_at (bus_state bus.now).copies.caches hart.number) }
    requires aligned { address % 4 ≡ 0 }
    ensures rule { (state : ModelState) → Shows (bus_state bus.now) state →
        option_map numbered_touch touch ≡ next_touch state.committed hart.number →
        definition_plain result ≡ model.reserve_rule state hart.number (Some address) }
    ensures old { (state : ModelState) → Shows (bus_state bus.now) state →
        Tells pool.now (bus_state bus.now) (committed_line state.committed) → IsOnLine state.committed →
        state.committed.base ≤ address → TellsOld result state.committed }
{
    let wanted = bus.is_wanted(hart, line_of(address), Need::Read);
    arm_rule(pool, bus.sets(hart), wanted, address, touch)
}

/// The same by whether another hart waits to write on the word's line: the hart arms where none does and it may read
/// the line; else the LR runs as any instruction.
#[tactic(auto, using(coherence::proofs::Laws::GivenBackLaws::readable_there, crate::proofs::Arming::never_finds))]
pub(crate) fn arm_rule(
    pool: &Pool,
    sets: &Sets,
    wanted: bool,
    address: u32,
    touch: Option<Touch>,
) -> PlainRule
    requires lent { IsLent pool.now sets.now }
    requires aligned { address % 4 ≡ 0 }
    ensures rule { definition_plain result
        ≡ arming_rule sets.now.residency wanted address (option_map numbered_touch touch) }
    ensures old { FindsOld result (lent pool.now sets.now) }
{
    let line = line_of(address);
    if wanted || !may(sets.letter(line), Need::Read) {
        return touch_rule(sets, touch);
    }
    PlainRule::Arms {
        word: address,
        old: word_in(sets.bytes(pool, line), address),
    }
}

/// The rule of any other action: it runs where the letter of its line permits it.
fn touch_rule(sets: &Sets, touch: Option<Touch>) -> PlainRule
    ensures never_arms { NeverArms result }
    ensures rule { definition_plain result ≡ touching_rule sets.now.residency (option_map numbered_touch touch) }
{
    match touch {
        Some(Touch { line, need }) if !may(sets.letter(line), need) => {
            PlainRule::Misses { line, need }
        }
        _ => PlainRule::Runs { touch },
    }
}
