//! The fields before the events.

ghost use Rattle.std.specs.Prelude.{◌≡◌, ◌≤◌, None, Some, length, slice_index, IfErr, IfOk, OnOk};
ghost use Rattle.el_base.specs.Config.{IsInRange};
ghost use Rattle.file_numbers.specs.Numbers.{number_at};
ghost use Rattle.trace_file.specs.Codes.{mode_at};
ghost use Rattle.trace_file.specs.Faults.{byte_fault, config_at, head_fault, is_few, is_mode, magic_fault, number_fault, settings_fault};
ghost use Rattle.trace_file.specs.Faults.{version_fault};

use crate::codes;
use crate::fault::FaultKind;
use crate::fields::{expect, reaches, setting_byte, setting_number};
use el_base::{Config, ConfigFault, FileFault, MAX_STEPS, Mode};
use file_numbers::number_at;

/// The first four bytes of a trace.
pub const MAGIC: [u8; 4] = [b'E', b'L', b'T', b'R'];

/// The version of the format that tells no outcomes, and of the one that does.
pub const WITHOUT_OUTCOMES: u8 = 1;

pub const WITH_OUTCOMES: u8 = 2;

// The places of the fields in the file.
const HARTS: u32 = 5;

const MODE: u32 = 6;

const SETS: u32 = 7;

const WAYS: u32 = 8;

const LINES: u32 = 9;

const LONG: u32 = 10;

const STEPS: u32 = 14;

const COUNT: u32 = 18;

/// How many bytes stand before the events.
pub const HEAD_BYTES: u32 = 22;

/// The most bytes of an entry: its event, and the longest outcome.
pub const MAX_ENTRY_BYTES: u32 = 10;

/// The most bytes that a trace has: its head, and the longest entry for each step.
pub const MAX_FILE_BYTES: u32 = HEAD_BYTES + MAX_ENTRY_BYTES * MAX_STEPS;

/// The version and the configuration of a trace, and how many events it says that it has.
#[derive(Drop)]
pub struct Head {
    pub version: u8,
    pub config: Config,
    pub count: u32,
}

/// The fields before the events, or the first fault among them.
#[tactic(auto, unfolding(crate::specs::Faults::head_fault, crate::specs::Faults::config_at))]
pub fn head_of(file: &[u8]) -> Result<Head, FileFault>
    ensures accepted { OnOk result (head_fault file.now ≡ None) }
    ensures refused { IfErr result (λ fault. head_fault file.now ≡ Some fault) }
    ensures fields { IfOk result (λ head. (head.config ≡ config_at file.now) × (head.count ≡ number_at file.now 18)) }
    ensures version { IfOk result (λ head. head.version ≡ slice_index file.now 4) }
    ensures whole { OnOk result (22 ≤ length file.now) }
    ensures settings { IfOk result (λ head. IsInRange head.config) }
    ensures few { IfOk result (λ head. head.count ≤ head.config.steps) }
{
    check_magic(file)?;
    let version = version_of(file)?;
    let config = config_of(file)?;
    let count = count_of(file, config.steps)?;
    Ok(Head {
        version,
        config,
        count,
    })
}

#[tactic(auto, unfolding(file_numbers::specs::Fields::short_or, crate::specs::Faults::magic_fault))]
fn check_magic(file: &[u8]) -> Result<(), FileFault>
    ensures accepted { OnOk result (magic_fault file.now ≡ None) }
    ensures refused { IfErr result (λ fault. magic_fault file.now ≡ Some fault) }
{
    reaches(file, 4)?;
    expect(file[0] == MAGIC[0], FaultKind::Magic, 0)?;
    expect(file[1] == MAGIC[1], FaultKind::Magic, 1)?;
    expect(file[2] == MAGIC[2], FaultKind::Magic, 2)?;
    expect(file[3] == MAGIC[3], FaultKind::Magic, 3)
}

#[tactic(auto, unfolding(file_numbers::specs::Fields::short_or, crate::specs::Faults::version_fault))]
fn version_of(file: &[u8]) -> Result<u8, FileFault>
    ensures value { IfOk result (λ version. version ≡ slice_index file.now 4) }
    ensures accepted { OnOk result (version_fault file.now ≡ None) }
    ensures refused { IfErr result (λ fault. version_fault file.now ≡ Some fault) }
{
    reaches(file, 5)?;
    let version = file[4];
    expect(
        (WITHOUT_OUTCOMES..=WITH_OUTCOMES).contains(&version),
        FaultKind::Version,
        4,
    )?;
    Ok(version)
}

#[tactic(auto, unfolding(crate::specs::Faults::settings_fault, crate::specs::Faults::config_at))]
fn config_of(file: &[u8]) -> Result<Config, FileFault>
    ensures value { IfOk result (λ config. config ≡ config_at file.now) }
    ensures accepted { OnOk result (settings_fault file.now ≡ None) }
    ensures refused { IfErr result (λ fault. settings_fault file.now ≡ Some fault) }
    ensures in_range { IfOk result (λ config. IsInRange config) }
{
    let harts = setting_byte(file, HARTS, ConfigFault::Harts)?;
    let mode = mode_of(file)?;
    let sets = setting_byte(file, SETS, ConfigFault::Sets)?;
    let ways = setting_byte(file, WAYS, ConfigFault::Ways)?;
    let lines = setting_byte(file, LINES, ConfigFault::Lines)?;
    let long = setting_number(file, LONG, ConfigFault::Long)?;
    let steps = setting_number(file, STEPS, ConfigFault::Steps)?;
    Ok(Config {
        harts,
        mode,
        sets,
        ways,
        lines,
        long,
        steps,
    })
}

/// The last number of a mode.
const LAST_MODE: u8 = 2;

/// The mode: 0 is plain, 1 sle, 2 tlr.
#[tactic(auto, unfolding(file_numbers::specs::Fields::short_or, crate::specs::Faults::byte_fault))]
fn mode_of(file: &[u8]) -> Result<Mode, FileFault>
    ensures value { IfOk result (λ mode. mode ≡ mode_at (slice_index file.now 6)) }
    ensures accepted { OnOk result (byte_fault file.now 6 is_mode ≡ None) }
    ensures refused { IfErr result (λ fault. byte_fault file.now 6 is_mode ≡ Some fault) }
{
    reaches(file, MODE + 1)?;
    let number = file[MODE as usize];
    expect(number <= LAST_MODE, FaultKind::Config, MODE)?;
    Ok(codes::mode_of(number))
}

/// How many events there are: no more than steps.
#[tactic(auto, unfolding(file_numbers::specs::Fields::short_or, crate::specs::Faults::number_fault))]
fn count_of(file: &[u8], steps: u32) -> Result<u32, FileFault>
    ensures value { IfOk result (λ count. count ≡ number_at file.now 18) }
    ensures accepted { OnOk result (number_fault file.now 18 (is_few steps) ≡ None) }
    ensures refused { IfErr result (λ fault. number_fault file.now 18 (is_few steps) ≡ Some fault) }
    ensures few { IfOk result (λ count. count ≤ steps) }
    ensures whole { OnOk result (22 ≤ length file.now) }
{
    reaches(file, COUNT + 4)?;
    let count = number_at(file, COUNT);
    expect(count <= steps, FaultKind::Config, COUNT)?;
    Ok(count)
}
