ghost use Rattle.std.specs.Prelude.{⊤, ◌≡◌, [], ◌∷◌, codes};
ghost use Rattle.cache_sets.specs.Bits.{bits_of_need, has_need, marks_in, with_need, writes_in};

use bitflags::{Flag, Flags, bitflag_items};
use el_base::Need;

/// What a hart's section has done to a line.
#[derive(Clone, Copy, Debug, PartialEq, Eq)]
pub struct Bits(u8);

bitflag_items! {
    impl Bits: u8 {
        /// The section has read the line.
        const READ = 1;
        /// The section has written the line.
        const WRITE = 2;
    }
}

impl Flags for Bits {
    type Bits = u8;

    ghost exact = { ⊤ };

    ghost table = { (codes "READ", 1) ∷ (codes "WRITE", 2) ∷ [] };

    ghost set_of = { λ bits. bits.0 };

    fn flags<'a>() -> &'a [Flag<Bits>] {
        Bits::FLAGS
    }

    fn bits(&self) -> u8 {
        self.0
    }

    fn from_bits_retain(bits: u8) -> Bits {
        Bits(bits)
    }
}

impl Bits {
    /// The bit that a hart's section sets by doing what it needs.
    pub fn of(need: Need) -> Bits
        ensures { result ≡ bits_of_need need }
    {
        match need {
            Need::Read => Bits::READ,
            Need::Write => Bits::WRITE,
        }
    }

    /// Whether the bit of a need is among these.
    pub fn has(self, need: Need) -> bool
        ensures { result ≡ has_need need self }
    {
        self.contains(Bits::of(need))
    }

    /// How many lines with bits a line with these is: one, or none without bits.
    pub(crate) fn marks(self) -> u16
        ensures { result ≡ marks_in self }
    {
        u16::from(self.has(Need::Read) || self.has(Need::Write))
    }

    /// How many written lines a line with these bits is.
    pub(crate) fn writes(self) -> u16
        ensures { result ≡ writes_in self }
    {
        u16::from(self.has(Need::Write))
    }

    /// These bits and the one of a need.
    pub(crate) fn with(self, need: Need) -> Bits
        ensures { result ≡ with_need need self }
    {
        self.union(Bits::of(need))
    }
}
