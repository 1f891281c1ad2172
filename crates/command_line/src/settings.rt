ghost use Rattle.std.specs.Prelude.{◌≡◌, Some, MatchResult, unwrap_or};
ghost use Rattle.el_base.specs.Config.{IsInRange, config_fault};
ghost use Rattle.command_line.specs.Settings.{byte_or_none, config_of};
ghost use Rattle.command_line.specs.Words.{run_meaning};

use crate::command::RunCommand;
use el_base::{Config, ConfigFault};

impl RunCommand<'_> {
    /// The configuration that the options ask for, usual in what they do not, or its first field that is
    /// out of range.
    pub fn config(&self) -> Result<Config, ConfigFault>
        ensures { MatchResult result
            (λ config. (config ≡ config_of (run_meaning self.now)) × IsInRange config)
            (λ fault. config_fault (config_of (run_meaning self.now)) ≡ Some fault) }
    {
        let usual = Config::usual();
        let config = Config {
            harts: byte_given(self.harts, usual.harts),
            mode: self.mode.unwrap_or(usual.mode),
            sets: byte_given(self.sets, usual.sets),
            ways: byte_given(self.ways, usual.ways),
            lines: byte_given(self.lines, usual.lines),
            long: self.long.unwrap_or(usual.long),
            steps: self.steps.unwrap_or(usual.steps),
        };
        config.check()?;
        Ok(config)
    }
}

/// A number for a field of one byte. One that the field cannot hold is out of the field's range, as
/// 0 is, so 0 stands for it.
fn byte_given(given: Option<u32>, usual: u8) -> u8
    ensures { result ≡ byte_or_none (unwrap_or given usual) }
{
    match given {
        Some(number) => u8::try_from(number).unwrap_or(0),
        None => usual,
    }
}
