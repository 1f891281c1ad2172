ghost use Rattle.std.specs.Prelude.{◌≡◌, None, IfErr, OnOk, Some};
ghost use Rattle.el_base.specs.Config.{allows, config_fault, field_fault, usual, within};
ghost use Rattle.el_base.specs.Modes.{mode_number, mode_of, mode_word};

use crate::hart_id::MAX_HARTS;
use crate::numbered::Numbered;

/// The most events of a run.
pub const MAX_STEPS: u32 = 16_777_216;

/// How a machine treats an acquire.
#[derive(Clone, Copy, Debug, PartialEq, Eq)]
pub enum Mode {
    /// Each acquire takes its lock.
    Plain,
    /// Acquires are elided, and in a conflict the request wins.
    Sle,
    /// Acquires are elided, and in a conflict the older attempt wins.
    Tlr,
}

impl Mode {
    /// The number of the mode, 0 to 2: its code in a trace.
    pub fn number(self) -> u8
        ensures { result ≡ mode_number self }
    {
        match self {
            Mode::Plain => 0,
            Mode::Sle => 1,
            Mode::Tlr => 2,
        }
    }

    /// The word of the mode, on a command line and in a report.
    pub fn word(self) -> &'static str
        ensures { result.now ≡ mode_word self }
    {
        match self {
            Mode::Plain => "plain",
            Mode::Sle => "sle",
            Mode::Tlr => "tlr",
        }
    }

    /// The mode of this word, or `None` where it is the word of none.
    pub fn with_word(word: &str) -> Option<Mode>
        ensures { result ≡ mode_of word.now }
    {
        match word {
            "plain" => Some(Mode::Plain),
            "sle" => Some(Mode::Sle),
            "tlr" => Some(Mode::Tlr),
            _ => None,
        }
    }
}

/// What a machine is made with.
#[derive(Clone, Copy, Debug, PartialEq, Eq)]
pub struct Config {
    /// The number of harts, 1 to 8.
    pub harts: u8,
    pub mode: Mode,
    /// Sets in each cache: 1, 2, 4, 8, 16, 32 or 64.
    pub sets: u8,
    /// Lines in each set, 1 to 8.
    pub ways: u8,
    /// The most lines that a section may write, 1 to 32.
    pub lines: u8,
    /// The most instructions that a section may run, 2 to 65,536.
    pub long: u32,
    /// The most events of a run, 1 to 16,777,216.
    pub steps: u32,
}

/// The first field of a configuration that is out of its range. `fault as u8` is its number.
#[derive(Clone, Copy, Debug, PartialEq, Eq)]
pub enum ConfigFault {
    Harts = 1,
    Sets = 2,
    Ways = 3,
    Lines = 4,
    Long = 5,
    Steps = 6,
}

impl Config {
    /// The configuration of a machine of which nothing was asked: one hart, in the mode that
    /// removes locks.
    pub fn usual() -> Config
        ensures { result ≡ usual }
    {
        Config {
            harts: 1,
            mode: Mode::Tlr,
            sets: 16,
            ways: 4,
            lines: 16,
            long: 2_000,
            steps: 4_000_000,
        }
    }

    /// Whether each field is in its range. An error is the first field that is not, in the order of
    /// the faults' numbers.
    pub fn check(&self) -> Result<(), ConfigFault>
        ensures accepted { OnOk result (config_fault self.now ≡ None) }
        ensures refused { IfErr result (λ fault. config_fault self.now ≡ Some fault) }
    {
        ConfigFault::Harts.judge(self.harts.into())?;
        ConfigFault::Sets.judge(self.sets.into())?;
        ConfigFault::Ways.judge(self.ways.into())?;
        ConfigFault::Lines.judge(self.lines.into())?;
        ConfigFault::Long.judge(self.long)?;
        ConfigFault::Steps.judge(self.steps)
    }
}

/// Whether a number is from `low` to `high`, both included.
fn is_within(low: u32, high: u32, number: u32) -> bool
    ensures { result ≡ within low high number }
{
    (low..=high).contains(&number)
}

impl Numbered for ConfigFault {
    ghost use Rattle.el_base.specs.ConfigFaults as faults;

    ghost kinds = { faults.config_faults };

    ghost number_of = { faults.number_of };

    ghost name_of = { faults.name_of };

    fn all() -> &'static [ConfigFault] {
        &[
            ConfigFault::Harts,
            ConfigFault::Sets,
            ConfigFault::Ways,
            ConfigFault::Lines,
            ConfigFault::Long,
            ConfigFault::Steps,
        ]
    }

    fn number(self) -> u8 {
        self as u8
    }

    fn name(self) -> &'static str {
        match self {
            ConfigFault::Harts => "Harts",
            ConfigFault::Sets => "Sets",
            ConfigFault::Ways => "Ways",
            ConfigFault::Lines => "Lines",
            ConfigFault::Long => "Long",
            ConfigFault::Steps => "Steps",
        }
    }
}

impl ConfigFault {
    /// Whether the field that this fault names may have this number.
    pub fn allows(self, number: u32) -> bool
        ensures { result ≡ allows self number }
    {
        match self {
            ConfigFault::Harts => is_within(1, MAX_HARTS.into(), number),
            ConfigFault::Sets => matches!(number, 1 | 2 | 4 | 8 | 16 | 32 | 64),
            ConfigFault::Ways => is_within(1, 8, number),
            ConfigFault::Lines => is_within(1, 32, number),
            ConfigFault::Long => is_within(2, 65_536, number),
            ConfigFault::Steps => is_within(1, MAX_STEPS, number),
        }
    }

    /// That the field may have this number. The error is this fault.
    fn judge(self, number: u32) -> Result<(), ConfigFault>
        ensures accepted { OnOk result (field_fault self number ≡ None) }
        ensures refused { IfErr result (λ fault. field_fault self number ≡ Some fault) }
    {
        if self.allows(number) {
            Ok(())
        } else {
            Err(self)
        }
    }
}
