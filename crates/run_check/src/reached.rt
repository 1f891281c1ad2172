//! What a run has reached.

ghost use Rattle.std.specs.Prelude.{◌≡◌, ◌<◌, ◌≤◌, ◌↔◌, IsNone, IfSome, false, length};
ghost use Rattle.rv_alu.specs.Span.{holds};
ghost use Rattle.rv_flat.specs.FlatState.{output_limit, span_of, view_of};
ghost use Rattle.rv_flat.specs.Memory.{byte_in};

use el_base::HartId;
use rv_flat::{Flat, HartView};

/// A value that shows the state that a run of a program has reached: its harts' views, its memory and its
/// output. No call takes memory.
pub trait Reached {
    ghost use Rattle.rv_flat.specs.FlatState.{FlatState};

    ghost state: { Self → FlatState };

    /// What the program sees of a hart.
    fn view(&self, hart: HartId) -> HartView
        requires { hart.number < length (state self.now).harts }
        ensures { result ≡ view_of (state self.now) hart.number };

    /// The byte of memory at an address, or none outside memory.
    fn byte(&self, address: u32) -> Option<u8>
        ensures none_exactly_outside { IsNone result ↔ (holds (span_of (state self.now)) address 1 ≡ false) }
        ensures exact { IfSome result (λ byte. byte ≡ byte_in (state self.now).base (state self.now).bytes address) };

    /// What the program has written.
    fn output(&self) -> &[u8]
        ensures exact { result.now ≡ (state self.now).output }
        ensures within_limit { length (state self.now).output ≤ output_limit };
}

impl Reached for Flat {
    ghost state = { λ flat. flat };

    fn view(&self, hart: HartId) -> HartView {
        self.hart(hart)
    }

    fn byte(&self, address: u32) -> Option<u8> {
        Flat::byte(self, address)
    }

    fn output(&self) -> &[u8] {
        Flat::output(self)
    }
}
