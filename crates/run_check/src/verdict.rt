//! What a check answers.

use el_base::Numbered;

/// What may differ between a certificate and the run of its serial order, in the order in which it is judged.
#[derive(Clone, Copy, Debug, PartialEq, Eq)]
pub enum Difference {
    /// A hart's view. The place is the least hart that differs.
    View = 1,
    /// The output. The place is the first index that differs, or the shorter length.
    Output,
    /// Memory. The place is the least line, by its number, that differs or that lies outside memory.
    Memory,
}

impl Numbered for Difference {
    ghost use Rattle.run_check.specs.Differences as differences;

    ghost kinds = { differences.differences };

    ghost number_of = { differences.number_of };

    ghost name_of = { differences.name_of };

    fn all() -> &'static [Difference] {
        &[Difference::View, Difference::Output, Difference::Memory]
    }

    fn number(self) -> u8 {
        self as u8
    }

    fn name(self) -> &'static str {
        match self {
            Difference::View => "View",
            Difference::Output => "Output",
            Difference::Memory => "Memory",
        }
    }
}

/// What is answered of a certificate.
#[derive(Clone, Copy, Debug, PartialEq, Eq)]
pub enum Verdict {
    /// It holds, and its serial order has so many steps.
    Holds { serial: u64 },
    /// It does not. `number` is that of the first difference: 1 view, 2 output, 3 memory. `place` is where it
    /// shows: a hart, an index of the output, or a line's number.
    Fails { number: u8, place: u32 },
}
