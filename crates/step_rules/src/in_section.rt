//! The rule of a hart inside of a live section.

ghost use Rattle.std.specs.Prelude.{◌≡◌, ◌<◌, ℕ, length};
ghost use Rattle.std.specs.Option.{option_map};
ghost use Rattle.el_model.specs.InSection as model;
ghost use Rattle.el_model.specs.State.{ModelState};
ghost use Rattle.snoop.specs.Shows.{Shows, bus_state};
ghost use Rattle.step_rules.specs.Actions.{IsNext, numbered_touch};
ghost use Rattle.step_rules.specs.Rules.{definition_in_section, is_full, marking_rule, section_of};

use crate::upcoming::{Touch, calls_or_stops, is_release, stores_to_word, touch_of};
use cache_sets::Sets;
use el_base::{Cause, Config, HartId, LineAddr, Need};
use moesi::may;
use rv_alu::Action;
use snoop::Bus;

/// How far a live or an armed section has come: how many instructions it has run, from its swap or LR on, and its word
/// with the value that the swap or LR found there.
#[derive(Clone, Copy, Debug, PartialEq, Eq)]
pub struct Progress {
    pub count: u32,
    pub word: u32,
    pub old: u32,
}

/// What a step of a hart with a live section comes to, which waits for no request.
#[derive(Clone, Copy, Debug, PartialEq, Eq)]
pub enum SectionRule {
    /// The section is rolled back by its own hart.
    RollsBack { cause: Cause },
    /// The release is next, and the section takes effect.
    Commits,
    /// One instruction runs, and what it touches has its bit.
    Buffers { touch: Option<Touch> },
    /// A request is raised.
    Misses { line: LineAddr, need: Need },
}

/// The rule of a hart with a live section, whose next action, on what the section shows, this is. (A section ends at
/// its release, and what it cannot hold back ends it without effect: 'Speculative Lock Elision', MICRO 2001.)
pub fn section_rule(
    bus: &Bus,
    hart: HartId,
    action: &Action,
    progress: Progress,
    config: &Config,
) -> SectionRule
    requires hart_exists { hart.number < length (bus_state bus.now).copies.caches }
    ensures { (state : ModelState) (new : ℕ) → Shows (bus_state bus.now) state → state.config ≡ config.now →
        IsNext action.now (model.shown_in state hart.number (section_of progress new)) hart.number →
        definition_in_section result ≡ model.section_rule state hart.number (section_of progress new) }
{
    if progress.count == config.long {
        SectionRule::RollsBack { cause: Cause::Long }
    } else if calls_or_stops(action) {
        SectionRule::RollsBack { cause: Cause::Call }
    } else if is_release(action, progress.word, progress.old) {
        SectionRule::Commits
    } else if stores_to_word(action, progress.word) {
        SectionRule::RollsBack {
            cause: Cause::Mixed,
        }
    } else {
        touch_rule(bus, hart, touch_of(action), config.lines)
    }
}

/// The rule of an action that the section goes on with, by what it touches.
fn touch_rule(bus: &Bus, hart: HartId, touch: Option<Touch>, lines: u8) -> SectionRule
    requires hart_exists { hart.number < length (bus_state bus.now).copies.caches }
    ensures { (state : ModelState) → Shows (bus_state bus.now) state → state.config.lines ≡ lines →
        definition_in_section result
        ≡ model.touch_rule state hart.number (option_map numbered_touch touch) }
{
    match touch {
        None => SectionRule::Buffers { touch: None },
        Some(touch) => bit_rule(bus, hart, touch, lines),
    }
}

/// The rule of an action that touches a line, which then has the bit that the action wants, or gets it.
fn bit_rule(bus: &Bus, hart: HartId, touch: Touch, lines: u8) -> SectionRule
    requires hart_exists { hart.number < length (bus_state bus.now).copies.caches }
    ensures { (state : ModelState) → Shows (bus_state bus.now) state → state.config.lines ≡ lines →
        definition_in_section result ≡ model.bit_rule state hart.number (numbered_touch touch) }
{
    let sets = bus.sets(hart);
    if is_covered(sets, touch) {
        return SectionRule::Buffers { touch: Some(touch) };
    }
    let wanted = bus.is_wanted(hart, touch.line, touch.need);
    mark_rule(sets, wanted, touch, lines)
}

/// The rule of an action that touches a line without the bit: the line must be one that may be written beside the
/// others, have room, be permitted and be wanted by no other hart.
pub(crate) fn mark_rule(sets: &Sets, wanted: bool, touch: Touch, lines: u8) -> SectionRule
    ensures { definition_in_section result
        ≡ marking_rule sets.now.ways lines sets.now.residency wanted (numbered_touch touch) }
{
    if is_full(sets, touch.need, lines) {
        SectionRule::RollsBack {
            cause: Cause::Lines,
        }
    } else if !sets.room(touch.line) {
        SectionRule::RollsBack { cause: Cause::Room }
    } else if !may(sets.letter(touch.line), touch.need) || wanted {
        SectionRule::Misses {
            line: touch.line,
            need: touch.need,
        }
    } else {
        SectionRule::Buffers { touch: Some(touch) }
    }
}

/// Whether the section would write one more line than it may.
fn is_full(sets: &Sets, need: Need, lines: u8) -> bool
    ensures { result ≡ is_full sets.now.residency lines need }
{
    need == Need::Write && sets.write_bits() == u16::from(lines)
}

/// Whether a line has the bit that an action wants: the write bit, or for a read either.
#[tactic(auto, using(cache_sets::proofs::Laws::BitsOfWays::read_need, cache_sets::proofs::Laws::BitsOfWays::write_need))]
pub fn is_covered(sets: &Sets, touch: Touch) -> bool
    ensures { result ≡ model.is_covered sets.now.residency touch.line.number touch.need }
{
    let bits = sets.bits(touch.line);
    match touch.need {
        Need::Read => bits.has(Need::Read) || bits.has(Need::Write),
        Need::Write => bits.has(Need::Write),
    }
}
