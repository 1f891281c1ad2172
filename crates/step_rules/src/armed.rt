//! The rule of a hart with an armed section.

ghost use Rattle.std.specs.Prelude.{◌≡◌, ◌&&◌, ℕ, Some};
ghost use Rattle.el_model.specs.Armed as model;
ghost use Rattle.el_model.specs.State.{ModelState};
ghost use Rattle.rv_flat.specs.FlatState.{FlatState};
ghost use Rattle.rv_flat.specs.Memory.{byte_in};
ghost use Rattle.snoop.specs.Shows.{Shows, bus_state};
ghost use Rattle.step_rules.specs.Actions.{IsNext, numbered_swap, swap_over};
ghost use Rattle.step_rules.specs.Rules.{HasOld, armed_of, completing_rule, definition_armed, growing};

use crate::in_section::Progress;
use crate::upcoming::{Exchange, Swap, conditional_of, is_quiet};
use el_base::{HartId, Need, line_of};
use rv_alu::Action;
use snoop::Bus;

/// How many instructions an armed section keeps private at most.
const MOST_ARMED: u32 = 15;

/// What a step of a hart with an armed section comes to. It waits for no request, since an armed hart never has one.
#[derive(Clone, Copy, Debug, PartialEq, Eq)]
pub enum ArmedRule {
    /// The SC is elided, and a live section begins.
    Elides { swap: Swap },
    /// One more instruction is kept private.
    Continues,
    /// All that was kept private takes effect, and the next instruction does not run yet.
    LetsGo,
}

/// The rule of a hart with an armed section, whose next action, on what the section shows, this is; `long` is how many
/// instructions a section may run. An SC of the section's word that changes it completes the acquire, unless another
/// hart waits to write there; what touches no memory is kept private, up to 15 instructions, as long as the SC behind it
/// is still within the length of a section; anything else lets the section go. (That LR and SC acquire a lock, too, is
/// said in 'Speculative Lock Elision', MICRO 2001; the rule is this project's profile.)
pub fn armed_rule(
    bus: &Bus,
    hart: HartId,
    action: &Action,
    progress: Progress,
    long: u32,
) -> ArmedRule
    ensures { (state : ModelState) → Shows (bus_state bus.now) state → state.config.long ≡ long →
        IsNext action.now (model.shown_armed state hart.number (armed_of progress)) hart.number →
        HasOld progress (model.shown_armed state hart.number (armed_of progress)) →
        definition_armed result ≡ model.armed_rule state hart.number (armed_of progress) }
{
    match conditional_of(action) {
        Some(exchange) => exchange_rule(bus, hart, exchange, progress),
        None => quiet_rule(action, progress.count, long),
    }
}

/// The rule of an SC that succeeds.
fn exchange_rule(bus: &Bus, hart: HartId, exchange: Exchange, progress: Progress) -> ArmedRule
    ensures { (state : ModelState) (shown : FlatState) → Shows (bus_state bus.now) state → HasOld progress shown →
        definition_armed result ≡ model.exchange_rule state hart.number (armed_of progress)
        (Some (swap_over (byte_in shown.base shown.bytes) exchange)) }
{
    let swap = Swap {
        word: exchange.word,
        old: progress.old,
        new: exchange.new,
    };
    let wanted = bus.is_wanted(hart, line_of(progress.word), Need::Read);
    complete_rule(swap, progress.word, wanted)
}

/// The same by whether another hart waits to write the line of the section's word, which is at `address`. `swap` finds
/// there what the LR found.
pub(crate) fn complete_rule(swap: Swap, address: u32, wanted: bool) -> ArmedRule
    ensures { definition_armed result ≡ completing_rule (numbered_swap swap) address wanted }
{
    if swap.word == address && swap.changes_word() && !wanted {
        ArmedRule::Elides { swap }
    } else {
        ArmedRule::LetsGo
    }
}

/// The rule of any other action, behind so many instructions.
fn quiet_rule(action: &Action, count: u32, long: u32) -> ArmedRule
    ensures { (flat : FlatState) (h : ℕ) → IsNext action.now flat h →
        definition_armed result ≡ growing (model.is_quiet flat h) count long }
{
    if is_quiet(action) && count < MOST_ARMED && count + 1 < long {
        ArmedRule::Continues
    } else {
        ArmedRule::LetsGo
    }
}
