ghost use Rattle.std.specs.Prelude.{◌≡◌, ◌+◌, ◌*◌, ◌/◌, ◌%◌, ◌^◌, ◌≤◌, IfSome, MatchOption, ℕ};
ghost use Rattle.std.specs.Option.{option_map};
ghost use Rattle.el_base.specs.declared.outcomes.Need.{Need};
ghost use Rattle.rv_alu.specs.Footprint.{IsSize};
ghost use Rattle.rv_alu.specs.Loaded.{loaded};
ghost use Rattle.core_step.specs.Run.{IsLoadable, IsStorable, byte_after};

use crate::port::Port;
use rv_alu::{Load, Store};

/// `len` bytes of a word from its byte `place` on, as a little-endian number.
#[tactic(auto, using(crate::proofs::Laws::Cuts::byte_shift))]
fn cut(word: u32, place: u32, len: u32) -> u32
    requires size { IsSize len }
    requires inside { place + len ≤ 4 }
    ensures { result ≡ word / 256 ^ place % 256 ^ len }
{
    let rest = word >> (8 * place);
    match len {
        1 => rest % 0x100,
        2 => rest % 0x1_0000,
        _ => rest,
    }
}

/// The number in the bytes of a load, cut out of the aligned word that has them.
#[tactic(auto, using(crate::proofs::Laws::Cuts::cut_loaded, crate::proofs::Laws::Cuts::in_word))]
fn number<P: Port>(port: &P, load: Load) -> u32
    requires { IsLoadable (P.permits port.now) load }
    ensures { result ≡ loaded (P.byte port.now) load.address load.len }
{
    let place = load.address % 4;
    cut(port.word(load.address - place), place, load.len)
}

/// The number that is loaded, if one is.
pub(crate) fn load<P: Port>(port: &P, load: Option<Load>) -> Option<u32>
    requires { IfSome load (IsLoadable (P.permits port.now)) }
    ensures { result ≡ option_map (λ load. loaded (P.byte port.now) load.address load.len) load }
{
    match load {
        None => None,
        Some(load) => Some(number(port, load)),
    }
}

/// Stores what is to be stored, if something is.
pub(crate) fn store<P: Port>(port: &mut P, store: Option<Store>)
    requires { IfSome store (IsStorable (P.permits port.old)) }
    ensures put { MatchOption store (port.new ≡ port.old)
        (λ store. P.put port.old port.new store.address store.len store.value) }
    ensures bytes { (at : ℕ) → P.byte port.new at ≡ byte_after store (P.byte port.old) at }
    ensures permissions { (line : ℕ) (need : Need) → P.permits port.new line need ≡ P.permits port.old line need }
{
    if let Some(store) = store {
        port.store(store.address, store.len, store.value);
    }
}
