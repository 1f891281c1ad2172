//! What an action is by itself.

ghost use Rattle.std.specs.Prelude.{◌≡◌, ◌%◌, ℕ, IfSome};
ghost use Rattle.std.specs.Option.{option_map};
ghost use Rattle.core_step.specs.Run.{IsAligned};
ghost use Rattle.step_rules.specs.Actions as actions;

use crate::upcoming::Exchange;
use rv_alu::Action;
use rv_word::AmoOp;

/// The swap that it is, if it is one.
pub fn swaps(action: Action) -> Option<Exchange>
    ensures exact { (byte : ℕ → ℕ) → option_map (actions.swap_over byte) result ≡ actions.swap_by byte action }
    ensures aligned { IsAligned action → IfSome result (λ exchange. exchange.word % 4 ≡ 0) }
{
    match action {
        Action::Amo {
            op: AmoOp::Swap,
            address,
            source,
            ..
        } => Some(Exchange {
            word: address,
            new: source,
        }),
        _ => None,
    }
}

/// The exchange that a store conditional is, if it is one that succeeds.
pub fn conditionals(action: Action) -> Option<Exchange>
    ensures exact { (byte : ℕ → ℕ) →
        option_map (actions.swap_over byte) result ≡ actions.conditional_by byte action }
    ensures aligned { IsAligned action → IfSome result (λ exchange. exchange.word % 4 ≡ 0) }
{
    match action {
        Action::StoreConditional { address, value, .. } => Some(Exchange {
            word: address,
            new: value,
        }),
        _ => None,
    }
}

/// The exchange that it is, if it is one of the two.
pub fn exchanges(action: Action) -> Option<Exchange>
    ensures exact { (byte : ℕ → ℕ) → option_map (actions.swap_over byte) result ≡ actions.exchange_by byte action }
    ensures aligned { IsAligned action → IfSome result (λ exchange. exchange.word % 4 ≡ 0) }
{
    match action {
        Action::StoreConditional { .. } => conditionals(action),
        _ => swaps(action),
    }
}

/// The word that it reserves, if it reserves one.
pub fn reserves(action: Action) -> Option<u32>
    ensures exact { result ≡ actions.reserved_by action }
    ensures aligned { IsAligned action → IfSome result (λ word. word % 4 ≡ 0) }
{
    match action {
        Action::LoadReserved { address, .. } => Some(address),
        _ => None,
    }
}

/// Whether it touches no memory, is no store conditional and neither calls nor stops its hart.
pub fn quiet(action: Action) -> bool
    ensures { result ≡ actions.quiet action }
{
    matches!(
        action,
        Action::Put { .. } | Action::JumpAndLink { .. } | Action::Go { .. }
    )
}

/// Whether it stores `old` in all of the word at an address, and is no store conditional.
pub fn releases(action: Action, word: u32, old: u32) -> bool
    ensures { result ≡ actions.releases word old action }
{
    match action {
        Action::Store {
            address,
            len,
            value,
        } => len == 4 && address == word && value == old,
        Action::Amo {
            op: AmoOp::Swap,
            address,
            source,
            ..
        } => address == word && source == old,
        _ => false,
    }
}

/// Whether it stores to a byte of the word at an address.
pub fn stores_in(action: Action, word: u32) -> bool
    ensures { result ≡ actions.stores_in word action }
{
    match action {
        Action::Store { address, len, .. } => meets_word(word, address, len),
        Action::StoreConditional { address, .. } | Action::Amo { address, .. } => {
            meets_word(word, address, 4)
        }
        _ => false,
    }
}

/// Whether some of `len` bytes from an address on are bytes of a word.
fn meets_word(word: u32, address: u32, len: u32) -> bool
    ensures { result ≡ actions.meets_word word address len }
{
    u64::from(address) < u64::from(word) + 4
        && u64::from(word) < u64::from(address) + u64::from(len)
}

/// Whether it is a system call, or stops its hart.
pub fn is_call_or_stop(action: Action) -> bool
    ensures { result ≡ actions.is_call_or_stop action }
{
    matches!(
        action,
        Action::Trap { .. } | Action::Exit { .. } | Action::Answer { .. } | Action::Append { .. }
    )
}
