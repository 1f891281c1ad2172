//! What an action is to the rules.

ghost use Rattle.std.specs.Prelude.{◌≡◌, ◌%◌, ℕ, IfSome, false, is_some, true};
ghost use Rattle.std.specs.Option.{option_map};
ghost use Rattle.core_step.specs.Run.{IsAligned};
ghost use Rattle.el_model.specs.Armed as armed;
ghost use Rattle.el_model.specs.Plain as plain;
ghost use Rattle.el_model.specs.Upcoming as model;
ghost use Rattle.pair_table.specs.Predictor.{Watch};
ghost use Rattle.rv_flat.specs.FlatState.{FlatState};
ghost use Rattle.rv_flat.specs.Laws.{next_insn};
ghost use Rattle.rv_flat.specs.Memory.{byte_in};
ghost use Rattle.step_rules.specs.Actions.{IsNext, numbered_swap, numbered_touch, swap_over};

use crate::action::{
    conditionals, exchanges, is_call_or_stop, quiet, releases, reserves, stores_in, swaps,
};
use el_base::{LineAddr, Need, line_of};
use pair_table::Seen;
use rv_alu::{Access, Action};

/// A line that an action touches, and what it needs of it.
#[derive(Clone, Copy, Debug, PartialEq, Eq)]
pub struct Touch {
    pub line: LineAddr,
    pub need: Need,
}

/// An exchange of a word, before memory is read: the address of the word, and the word that it stores.
#[derive(Clone, Copy, Debug, PartialEq, Eq)]
pub struct Exchange {
    pub word: u32,
    pub new: u32,
}

/// An exchange of a word, by a swap or a store conditional: the word's address, the word that it finds there, and the
/// one that it stores.
#[derive(Clone, Copy, Debug, PartialEq, Eq)]
pub struct Swap {
    pub word: u32,
    pub old: u32,
    pub new: u32,
}

impl Swap {
    /// Whether it changes its word, which makes it a candidate for an acquire.
    pub fn changes_word(self) -> bool
        ensures { result ≡ model.changes_word (numbered_swap self) }
    {
        self.old != self.new
    }
}

/// The line that an action touches, if it touches one.
#[tactic(auto, using(crate::proofs::Laws::NextAction::next_touch))]
pub fn touch_of(action: &Action) -> Option<Touch>
    ensures { (flat : FlatState) (h : ℕ) → IsNext action.now flat h →
        option_map numbered_touch result ≡ model.next_touch flat h }
{
    match action.footprint() {
        Access::Read { address, .. } => Some(Touch {
            line: line_of(address),
            need: Need::Read,
        }),
        Access::Write { address, .. } => Some(Touch {
            line: line_of(address),
            need: Need::Write,
        }),
        _ => None,
    }
}

/// The swap that an action is, if it is one. A swap that traps is none. (AMOSWAP.W, RISC-V unprivileged manual, the
/// chapter 'A Standard Extension for Atomic Instructions'.)
#[tactic(auto, using(crate::proofs::Laws::NextAction::next_swap))]
pub fn swap_of(action: &Action) -> Option<Exchange>
    ensures next { (flat : FlatState) (h : ℕ) → IsNext action.now flat h →
        option_map (swap_over (byte_in flat.base flat.bytes)) result ≡ model.next_swap flat h }
    ensures aligned { IsAligned action.now → IfSome result (λ exchange. exchange.word % 4 ≡ 0) }
{
    swaps(*action)
}

/// The exchange that an action is where it is a store conditional that succeeds. One that fails or traps is none.
/// (SC.W, in the same chapter.)
#[tactic(auto, using(crate::proofs::Laws::NextAction::next_conditional))]
pub fn conditional_of(action: &Action) -> Option<Exchange>
    ensures next { (flat : FlatState) (h : ℕ) → IsNext action.now flat h →
        option_map (swap_over (byte_in flat.base flat.bytes)) result ≡ model.next_conditional flat h }
    ensures aligned { IsAligned action.now → IfSome result (λ exchange. exchange.word % 4 ≡ 0) }
{
    conditionals(*action)
}

/// The exchange that an action is, if it is one: a swap, or a store conditional that succeeds.
#[tactic(auto, using(crate::proofs::Laws::NextAction::next_exchange))]
pub fn exchange_of(action: &Action) -> Option<Exchange>
    ensures next { (flat : FlatState) (h : ℕ) → IsNext action.now flat h →
        option_map (swap_over (byte_in flat.base flat.bytes)) result ≡ model.next_exchange flat h }
    ensures aligned { IsAligned action.now → IfSome result (λ exchange. exchange.word % 4 ≡ 0) }
{
    exchanges(*action)
}

/// Whether an action that exchanges a word is a store conditional, and not a swap.
pub fn is_conditional(action: &Action) -> bool
    ensures { (flat : FlatState) (h : ℕ) → IsNext action.now flat h → is_some (model.next_exchange flat h) ≡ true →
        result ≡ model.is_store_conditional (next_insn flat h) }
{
    conditionals(*action).is_some()
}

/// The word that an action reserves, if it is a load reserved. One that traps reserves none. (LR.W, in the same
/// chapter.)
#[tactic(auto, using(crate::proofs::Laws::NextAction::next_reserved, crate::proofs::Laws::NextAction::reserves_going))]
pub fn reserve_of(action: &Action) -> Option<u32>
    ensures next { (flat : FlatState) (h : ℕ) → IsNext action.now flat h → result ≡ model.next_reserved flat h }
    ensures going { (flat : FlatState) (h : ℕ) → IsNext action.now flat h → model.calls_or_stops flat h ≡ false →
        is_some result ≡ model.is_load_reserved (next_insn flat h) }
    ensures aligned { IsAligned action.now → IfSome result (λ word. word % 4 ≡ 0) }
{
    reserves(*action)
}

/// Whether an action touches no memory, is no store conditional and neither calls nor stops its hart.
#[tactic(auto, using(crate::proofs::Laws::NextAction::next_quiet))]
pub fn is_quiet(action: &Action) -> bool
    ensures { (flat : FlatState) (h : ℕ) → IsNext action.now flat h → result ≡ armed.is_quiet flat h }
{
    quiet(*action)
}

/// Whether an action gives a word its old value back: a store of a word, or a swap. A store conditional does not.
#[tactic(auto, using(crate::proofs::Laws::NextAction::next_release))]
pub fn is_release(action: &Action, word: u32, old: u32) -> bool
    ensures { (flat : FlatState) (h : ℕ) → IsNext action.now flat h → result ≡ model.is_release flat h word old }
{
    releases(*action, word, old)
}

/// Whether an action stores to a byte of the word at an address.
#[tactic(auto, using(crate::proofs::Laws::NextAction::next_store_to_word))]
pub fn stores_to_word(action: &Action, word: u32) -> bool
    ensures { (flat : FlatState) (h : ℕ) → IsNext action.now flat h → result ≡ model.stores_to_word flat h word }
{
    stores_in(*action, word)
}

/// Whether an action is a system call, or stops its hart: it traps or exits.
#[tactic(auto, using(crate::proofs::Laws::NextAction::next_call_or_stop))]
pub fn calls_or_stops(action: &Action) -> bool
    ensures { (flat : FlatState) (h : ℕ) → IsNext action.now flat h → result ≡ model.calls_or_stops flat h }
{
    is_call_or_stop(*action)
}

/// What an action is to the watch of an acquire, which found `old` in the word at `word`.
pub fn seen_by(action: &Action, word: u32, old: u32) -> Seen
    ensures { (flat : FlatState) (h : ℕ) (watch : Watch) → IsNext action.now flat h → watch.word ≡ word →
        watch.old ≡ old → result ≡ plain.seen_by flat h watch }
{
    Seen {
        release: is_release(action, word, old),
        touches: stores_to_word(action, word),
        call_or_stop: calls_or_stops(action),
    }
}
