ghost use Rattle.std.specs.Prelude.{◌≡◌, MatchOption, ℕ};
ghost use Rattle.el_base.specs.declared.outcomes.Need.{Need};
ghost use Rattle.rv_alu.specs.Execution.{executed, perform, store_in, touched, view_after};
ghost use Rattle.rv_alu.specs.Footprint.{footprint};
ghost use Rattle.rv_alu.specs.declared.view.HartStatus.TheVariants.{Running};
ghost use Rattle.core_step.specs.Run.{IsAligned, IsReady, byte_after, ended_by, ended_of, lacking, store_when, view_when};

use crate::ended::Ended;
use crate::port::Port;
use crate::want::lack;
use crate::words::{load, store};
use rv_alu::{Action, HartView, Span};

/// Runs the next instruction of a hart over a port: `word` is the word at its pc (`None` where there is
/// no code), `span` where memory lies, and `room` how many bytes the output still takes.
///
/// `Needs` comes exactly where the instruction touches memory and the port does not permit its line for
/// that need; `Stops` exactly where it is permitted and the instruction traps or exits. What a write call
/// appends to the output is [`crate::written`]'s to tell. (RISC-V unprivileged manual, chapter 2 and 'A
/// Standard Extension for Atomic Instructions'; what a trap and a call do is this project's profile.)
#[tactic(auto, using(crate::proofs::Laws::Runs::aligned_at, crate::proofs::Laws::Runs::lacking_same, crate::proofs::Laws::Runs::performed))]
pub fn run_insn<P: Port>(
    port: &mut P,
    view: &mut HartView,
    word: Option<u32>,
    span: Span,
    room: u32,
) -> Ended
    requires { view.old.status ≡ Running }
    ensures ended { result ≡ ended_of (lacking (P.permits port.old) (touched word view.old span room))
        (executed word view.old span room (P.byte port.old)) }
    ensures view { view.new ≡ view_when result (executed word view.old span room (P.byte port.old)) view.old }
    ensures put { MatchOption (store_when result (executed word view.old span room (P.byte port.old)))
        (port.new ≡ port.old) (λ store. P.put port.old port.new store.address store.len store.value) }
    ensures bytes { (at : ℕ) → P.byte port.new at ≡
        byte_after (store_when result (executed word view.old span room (P.byte port.old))) (P.byte port.old) at }
    ensures permissions { (line : ℕ) (need : Need) → P.permits port.new line need ≡ P.permits port.old line need }
{
    run_action(port, view, Action::at(word, view, span, room))
}

/// Runs the next instruction of a hart over a port, where it is known what it does ([`Action::at`]).
///
/// `Needs` comes exactly where the action touches memory and the port does not permit its line for that
/// need; `Stops` exactly where it is permitted and traps or exits. What a write call appends to the output
/// is in the action.
pub fn run_action<P: Port>(port: &mut P, view: &mut HartView, action: Action) -> Ended
    requires running { view.old.status ≡ Running }
    requires aligned { IsAligned action }
    ensures ended { result ≡ ended_of (lacking (P.permits port.old) (footprint action))
        (perform action view.old (P.byte port.old)) }
    ensures view { view.new ≡ view_when result (perform action view.old (P.byte port.old)) view.old }
    ensures put { MatchOption (store_when result (perform action view.old (P.byte port.old)))
        (port.new ≡ port.old) (λ store. P.put port.old port.new store.address store.len store.value) }
    ensures bytes { (at : ℕ) → P.byte port.new at ≡
        byte_after (store_when result (perform action view.old (P.byte port.old))) (P.byte port.old) at }
    ensures permissions { (line : ℕ) (need : Need) → P.permits port.new line need ≡ P.permits port.old line need }
{
    match lack(port, action.footprint()) {
        Some(want) => Ended::Needs {
            line: want.line,
            need: want.need,
        },
        None => carry_out(port, view, action),
    }
}

/// Carries out an action that the port lets happen.
#[tactic(auto, using(crate::proofs::Laws::Runs::load_ready, crate::proofs::Laws::Runs::ended_alike))]
fn carry_out<P: Port>(port: &mut P, view: &mut HartView, action: Action) -> Ended
    requires running { view.old.status ≡ Running }
    requires ready { IsReady (P.permits port.old) action }
    ensures ended { result ≡ ended_by (perform action view.old (P.byte port.old)) }
    ensures view { view.new ≡ view_after (perform action view.old (P.byte port.old)) view.old }
    ensures put { MatchOption (store_in (perform action view.old (P.byte port.old)))
        (port.new ≡ port.old) (λ store. P.put port.old port.new store.address store.len store.value) }
    ensures bytes { (at : ℕ) → P.byte port.new at ≡
        byte_after (store_in (perform action view.old (P.byte port.old))) (P.byte port.old) at }
    ensures permissions { (line : ℕ) (need : Need) → P.permits port.new line need ≡ P.permits port.old line need }
{
    let number = load(port, action.loads());
    let transfers = action.perform(view, number);
    store(port, transfers.store);
    Ended::with(view.status)
}
