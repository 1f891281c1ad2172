//! Words in the bytes of a line.

ghost use Rattle.std.specs.Prelude.{◌≡◌, ◌%◌, slice_index};
ghost use Rattle.el_base.specs.declared.line.TheConstants.{LINE_BYTES};
ghost use Rattle.rv_alu.specs.Loaded.{loaded};

use el_base::LINE_BYTES;
use line_lanes::word_at;

/// The word at an address, in the bytes of its line: little-endian, as RV32I has it.
#[tactic(auto, using(line_lanes::proofs::Laws::word_nested))]
pub fn word_in(line: &[u8; 64], address: u32) -> u32
    requires { address % 4 ≡ 0 }
    ensures { result ≡ loaded (slice_index line.now) (address % LINE_BYTES) 4 }
{
    word_at(line, (address % LINE_BYTES) as u8)
}
