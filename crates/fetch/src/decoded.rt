use rv_word::Insn;

/// An instruction and the address of its word.
#[derive(Clone, Copy, Debug, PartialEq, Eq)]
pub(crate) struct Decoded {
    pub(crate) pc: u32,
    pub(crate) insn: Insn,
}
