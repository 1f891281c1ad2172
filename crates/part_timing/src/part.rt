//! The parts whose calls are made.

/// An instruction of a hart.
#[derive(Clone, Copy, Debug, PartialEq, Eq)]
pub enum Insn {
    /// `addi x7, x7, 3`
    Addi,
    /// `add x7, x2, x2`
    Add,
    /// `mul x7, x2, x2`
    Mul,
    /// `div x7, x2, x2`
    Div,
    /// `lw x7, -64(x2)`
    Load,
    /// `sw x7, -64(x2)`
    Store,
}

/// What is called.
#[derive(Clone, Copy, Debug, PartialEq, Eq)]
pub enum Part {
    /// Whether a cache has a line.
    Has,
    /// The letter of a line that a cache has.
    Letter,
    /// `Has`, and then a touch of the line, which is the least recent one of its set.
    Touch,
    /// Whether a cache has a line, and whether there is room for one that it has not.
    Room,
    /// `Room`, and then a fill of the line, for which another leaves.
    Fill,
    /// A word is stored into a write hold.
    Store,
    /// A word is read over what a write hold has of its line.
    Load,
    /// A word of each of 16 lines is stored into a write hold, and each line is drained.
    Drain,
    /// A step on plain shared memory.
    Flat(Insn),
    /// The same instruction over a port: the word at the pc, and the instruction.
    Port(Insn),
}

impl Part {
    /// All parts.
    pub const ALL: [Part; 20] = [
        Part::Has,
        Part::Letter,
        Part::Touch,
        Part::Room,
        Part::Fill,
        Part::Store,
        Part::Load,
        Part::Drain,
        Part::Flat(Insn::Addi),
        Part::Port(Insn::Addi),
        Part::Flat(Insn::Add),
        Part::Port(Insn::Add),
        Part::Flat(Insn::Mul),
        Part::Port(Insn::Mul),
        Part::Flat(Insn::Div),
        Part::Port(Insn::Div),
        Part::Flat(Insn::Load),
        Part::Port(Insn::Load),
        Part::Flat(Insn::Store),
        Part::Port(Insn::Store),
    ];

    /// The word for a part.
    pub fn name(self) -> &'static str {
        match self {
            Part::Has => "has",
            Part::Letter => "letter",
            Part::Touch => "touch",
            Part::Room => "room",
            Part::Fill => "fill",
            Part::Store => "store",
            Part::Load => "load",
            Part::Drain => "drain",
            Part::Flat(Insn::Addi) => "flat-addi",
            Part::Port(Insn::Addi) => "port-addi",
            Part::Flat(Insn::Add) => "flat-add",
            Part::Port(Insn::Add) => "port-add",
            Part::Flat(Insn::Mul) => "flat-mul",
            Part::Port(Insn::Mul) => "port-mul",
            Part::Flat(Insn::Div) => "flat-div",
            Part::Port(Insn::Div) => "port-div",
            Part::Flat(Insn::Load) => "flat-lw",
            Part::Port(Insn::Load) => "port-lw",
            Part::Flat(Insn::Store) => "flat-sw",
            Part::Port(Insn::Store) => "port-sw",
        }
    }

    /// The part of a word, or none.
    pub fn with_name(name: &str) -> Option<Part> {
        Part::ALL.iter().find(|part| part.name() == name).copied()
    }
}
