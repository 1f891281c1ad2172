ghost use Rattle.std.specs.Prelude.{◌≡◌, ℕ, Bool, IfSome, Some, None};
ghost use Rattle.std.specs.Option.{option_map};
ghost use Rattle.el_base.specs.declared.outcomes.Need.{Need};
ghost use Rattle.rv_word.specs.Decoding.{decoded};
ghost use Rattle.rv_word.specs.declared.insn.Insn.TheVariants.{Ecall};
ghost use Rattle.rv_alu.specs.Action.{action_of};
ghost use Rattle.rv_alu.specs.Execution.{append_in, executed, touched};
ghost use Rattle.core_step.specs.Run.{ended_of, lacking};
ghost use Rattle.core_step.specs.Written.{appended_of, read_of};
ghost use Rattle.core_step.specs.declared.ended.Ended.TheVariants.{Ran};

use rv_alu::{Access, Action, HartView, Span};
use rv_word::Insn;

/// The reading of the bytes that a hart's next instruction, an ECALL, appends to the output, which has
/// room for `room` bytes; `None` where it is no write call or appends nothing. Where the reading is
/// permitted [`crate::run_insn`] answers `Ran`, with the same arguments.
#[tactic(auto, using(crate::proofs::Calls::appends, crate::proofs::Calls::touches, crate::proofs::Calls::runs))]
pub fn written(view: &HartView, span: Span, room: u32) -> Option<Access>
    ensures value { result ≡ appended_of (action_of Ecall view.now.pc view.now.regs view.now.reserved span room) }
    ensures append { (word : ℕ) (byte : ℕ → ℕ) → decoded word ≡ Some Ecall →
        result ≡ option_map read_of (append_in (executed (Some word) view.now span room byte)) }
    ensures footprint { (word : ℕ) → decoded word ≡ Some Ecall →
        IfSome result (λ access. touched (Some word) view.now span room ≡ access) }
    ensures ran_where_permitted { (word : ℕ) (byte : ℕ → ℕ) (permits : ℕ → Need → Bool) → decoded word ≡ Some Ecall →
        IfSome result (λ access. lacking permits access ≡ None →
        ended_of (lacking permits (touched (Some word) view.now span room))
        (executed (Some word) view.now span room byte) ≡ Ran) }
{
    appended(Action::of(&Insn::Ecall, view.pc, &view.regs, view.reserved, span, room))
}

/// The reading of the bytes that an action appends to the output, if it does.
fn appended(action: Action) -> Option<Access>
    ensures { result ≡ appended_of action }
{
    match action {
        Action::Append { address, len } => Some(Access::Read { address, len }),
        _ => None,
    }
}
