ghost use Rattle.std.specs.Prelude.{◌≡◌, ℕ};
ghost use Rattle.el_model.specs.Upcoming as model;
ghost use Rattle.rv_flat.specs.FlatState.{FlatState, view_of};
ghost use Rattle.rv_flat.specs.Laws.{next_insn};
ghost use Rattle.rv_word.specs.Decoding.{decoded};
ghost use Rattle.std.specs.Prelude.{Some};
ghost use Rattle.step_rules.specs.Actions.{IsNext};

use elf_image::Code;
use rv_alu::Action;
use rv_word::{Insn, decode};
use step_rules::{calls_or_stops, reserve_of};

/// Whether the instruction at `pc`, whose action this is, is an LR. One that traps is an LR too, which its action does
/// not tell; so the word is decoded where the action stops the hart or calls.
pub fn is_load_reserved(code: &Code, pc: u32, action: &Action) -> bool
    ensures { (flat : FlatState) (h : ℕ) → IsNext action.now flat h → flat.code ≡ code.now → (view_of flat h).pc ≡ pc →
        result ≡ model.is_load_reserved (next_insn flat h) }
{
    if !calls_or_stops(action) {
        return reserve_of(action).is_some();
    }
    match code.code_word(pc) {
        Some(word) => means_lr(word),
        None => false,
    }
}

/// Whether a word means an LR.
fn means_lr(word: u32) -> bool
    ensures { result ≡ model.is_load_reserved (decoded word) }
{
    match decode(word) {
        Some(Insn::Lr { .. }) => true,
        _ => false,
    }
}
