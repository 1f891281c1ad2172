ghost use Rattle.std.specs.Prelude.{◌≡◌};
ghost use Rattle.rv_text.specs.Going as going;

use rv_word::Insn;

/// The address that a branch or a jump by an offset goes to, of an instruction at this address; none of any other
/// instruction. Addresses wrap at 2^32 (RISC-V unprivileged manual, chapter 2).
pub fn target(insn: Insn, address: u32) -> Option<u32>
    ensures { result ≡ going.target_of insn address }
{
    match insn {
        Insn::Jal { rd: _, offset } => Some(moved(address, offset)),
        Insn::Branch {
            test: _,
            rs1: _,
            rs2: _,
            offset,
        } => Some(moved(address, offset)),
        _ => None,
    }
}

/// An address and an offset from it, which wraps at 2^32.
pub(crate) fn moved(address: u32, offset: i32) -> u32
    ensures { result ≡ going.moved address offset }
{
    address.wrapping_add(offset.cast_unsigned())
}
