//! Main memory and the caches before the first event.

ghost use Rattle.std.specs.Prelude.{◌≡◌, ◌*◌, ◌+◌, ◌≤◌, IfOk, length, map};
ghost use Rattle.std.specs.List.{range_with_len};
ghost use Rattle.cache_sets.specs.Slotted.{empty_slotted};
ghost use Rattle.coherence.specs.Beginning.{line_in};
ghost use Rattle.el_base.specs.Config.{IsInRange};

use cache_sets::Sets;
use el_base::{Config, NoMemory};
use std::alloc::Global;

/// The bytes of one line of memory.
fn line_at(bytes: &[u8], place: u32) -> [u8; 64]
    requires { place * 64 + 64 ≤ length bytes.now }
    ensures { result ≡ line_in bytes.now place }
{
    let mut line = [0; 64];
    let from = place as usize * 64;
    line.copy_from_slice(&bytes[from..from + 64]);
    line
}

/// Memory, line by line.
pub fn lines_of(alloc: Global, bytes: &[u8], count: u32) -> Result<Vec<[u8; 64]>, NoMemory>
    requires { count * 64 ≡ length bytes.now }
    ensures { IfOk result (λ lines. lines.items ≡ map (line_in bytes.now) (range_with_len 0 count)) }
{
    let mut lines = Vec::with_capacity(alloc, count as usize)?;
    for place in 0..count {
        let line = line_at(bytes, place);
        lines.push(line)?;
    }
    Ok(lines)
}

/// A cache for each hart, without lines, which takes its slots as the owner of the hart's number.
pub fn empty_caches(alloc: Global, config: &Config) -> Result<Vec<Sets>, NoMemory>
    requires { IsInRange config.now }
    ensures { IfOk result (λ caches.
        caches.items ≡ map (λ h. empty_slotted config.now.ways config.now.sets h)
        (range_with_len 0 config.now.harts)) }
{
    let mut caches = Vec::new(alloc);
    for hart in 0..config.harts {
        caches.push(Sets::make(alloc, config, hart.into())?)?;
    }
    Ok(caches)
}
