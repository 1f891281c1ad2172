//! What a hart stands at.

ghost use Rattle.std.specs.Prelude.{◌≡◌, ◌<◌, ◌==◌, replicate};
ghost use Rattle.std.specs.List.{list_any};
ghost use Rattle.std.specs.Option.{option_map};
ghost use Rattle.el_base.specs.Freed.{order_of};
ghost use Rattle.el_model.specs.Next.{shown_of};
ghost use Rattle.lab.specs.Tries.{line_waited_for};
ghost use Rattle.lab.specs.Waits.{acts, last_effect};
ghost use Rattle.machine.specs.Story.{state_of};

use crate::tries::waited_for;
use el_base::{Chronicled, Entry, Freed, HartId, LineAddr, Outcome};
use machine::Machine;

/// What a hart stands at after the events of a run.
#[derive(Clone, Copy, Debug, PartialEq, Eq)]
pub struct Wait {
    /// The pc of what the hart itself sees.
    pub pc: u32,
    /// The line that it waits for, `None` where it waits for none.
    pub line: Option<LineAddr>,
    /// The place of the last entry by which an instruction of it took effect, `None` where none did.
    pub last: Option<u32>,
}

/// What a hart stands at. It goes through the history once.
pub fn wait_of(machine: &Machine, hart: HartId) -> Wait
    requires { hart.number < machine.now.config.harts }
    ensures pc { result.pc ≡ (shown_of (state_of machine.now) hart.number).pc }
    ensures line { option_map (λ line. line.number) result.line ≡ line_waited_for (state_of machine.now) hart.number }
    ensures last { result.last ≡ last_effect hart.number machine.now.entries }
{
    Wait {
        pc: machine.shown(hart).pc,
        line: waited_for(machine, hart),
        last: last_effect(machine, hart),
    }
}

/// The place of the last entry by which an instruction of a hart took effect.
fn last_effect(machine: &Machine, hart: HartId) -> Option<u32>
    ensures { result ≡ last_effect hart.number machine.now.entries }
{
    let mut last = None;
    for place in 0..machine.length() {
        if acts(hart, machine.entry(place)) {
            last = Some(place);
        }
    }
    last
}

/// Whether an instruction of a hart took effect by an entry.
fn acts(hart: HartId, entry: Entry) -> bool
    ensures { result ≡ acts hart.number entry }
{
    let own = entry.event.hart;
    match entry.outcome {
        Outcome::Ran => took_effect(1, own, hart),
        Outcome::Committed { count } | Outcome::LetGo { count } => took_effect(count, own, hart),
        Outcome::Ordered { freed, .. } | Outcome::Served { freed, .. } => was_freed(freed, hart),
        _ => false,
    }
}

/// Whether a hart is one of which so many instructions took effect, where they are of its own.
#[tactic(auto, using(crate::proofs::Waiting::among_replicate))]
fn took_effect(count: u32, own: HartId, hart: HartId) -> bool
    ensures { result ≡ list_any (λ other. other == hart.number) (replicate count own.number) }
{
    own.number == hart.number && count > 0
}

/// Whether instructions of a hart took effect since it was let go.
fn was_freed(freed: Freed, hart: HartId) -> bool
    ensures { result ≡ list_any (λ other. other == hart.number) (order_of freed) }
{
    freed.count_of(hart) > 0
}
