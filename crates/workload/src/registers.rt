//! The registers of a workload, by what they have.

ghost use Rattle.std.specs.Prelude.{◌≡◌, ◌<◌};
ghost use Rattle.workload.specs.Registers as registers;

use rv_word::Reg;

/// A register, by what a workload has there.
#[derive(Clone, Copy, Debug, PartialEq, Eq)]
pub enum Register {
    /// Always 0.
    Zero,
    /// Values that are soon used up.
    T0,
    T1,
    T2,
    /// The hart's number, from the start on.
    Hart,
    /// The number of harts, from the start on.
    Harts,
    /// What a system call takes.
    A0,
    A1,
    A2,
    /// The number of a system call.
    A7,
    /// The address of the data.
    Data,
    /// How many rounds are left.
    RoundsLeft,
    /// In a round, how many words are left.
    Left,
    /// The address of a lock.
    Lock,
    /// The address of a second lock.
    OtherLock,
    /// The address of a word.
    Word,
    /// The address of a second word.
    OtherWord,
    /// What the next number is drawn from.
    State,
    /// The sum of the words.
    Sum,
}

impl Register {
    /// The register as instructions name it.
    #[tactic(auto, unfolding(crate::specs::Registers::reg, rv_word::specs::Field::reg_field))]
    pub fn reg(self) -> Reg
        ensures { result ≡ registers.reg self }
    {
        Reg {
            number: self.number(),
        }
    }

    fn number(self) -> u8
        ensures exact { result ≡ registers.number_of self }
        ensures small { result < 32 }
    {
        match self {
            Register::Zero => 0,
            Register::T0 => 5,
            Register::T1 => 6,
            Register::T2 => 7,
            Register::Hart | Register::A0 => 10,
            Register::Harts | Register::A1 => 11,
            Register::A2 => 12,
            Register::A7 => 17,
            Register::Data => 18,
            Register::RoundsLeft => 19,
            Register::Left => 20,
            Register::Lock => 21,
            Register::OtherLock => 22,
            Register::Word => 23,
            Register::OtherWord => 24,
            Register::State => 25,
            Register::Sum => 26,
        }
    }
}
