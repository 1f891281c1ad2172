//! What a machine has before its first event.

ghost use Rattle.std.specs.Prelude.{◌≡◌, ◌+◌, IfOk, length, map};
ghost use Rattle.std.specs.List.{range_with_len};
ghost use Rattle.el_base.specs.Config.{IsInRange};
ghost use Rattle.engine.specs.Lent.{first_quotas, quota_for};
ghost use Rattle.engine.specs.Views.{first_own};
ghost use Rattle.line_pool.specs.Calls.{IsMade};

use el_base::{Config, NoMemory};
use elf_image::Image;
use hart_state::HartState;
use line_pool::Pool;
use rv_alu::Span;
use rv_flat::first_view;
use std::alloc::Global;

/// The addresses of memory.
pub(crate) fn memory_of(image: &Image) -> Span
    ensures { result ≡ record { base = image.now.base; end = image.now.base + length image.now.bytes } }
{
    Span {
        base: image.base(),
        end: image.base() + image.bytes().len() as u32,
    }
}

/// The owner of the slots of a hart's buffered stores; those of its cache have the hart's own number.
fn hold_owner(hart: u8) -> u16
    ensures { result ≡ 8 + hart }
{
    8 + u16::from(hart)
}

/// How many slots an owner has: those of a hart's cache, or those of its buffered stores.
fn quota_for(config: &Config, owner: u8) -> u16
    requires in_range { IsInRange config.now }
    ensures { result ≡ quota_for config.now owner }
{
    if owner < 8 {
        if owner < config.harts {
            u16::from(config.sets) * u16::from(config.ways)
        } else {
            0
        }
    } else if owner - 8 < config.harts {
        u16::from(config.lines)
    } else {
        0
    }
}

/// The slots of all lines, in one piece.
pub(crate) fn first_pool(alloc: Global, config: &Config) -> Result<Pool, NoMemory>
    requires in_range { IsInRange config.now }
    ensures { IfOk result (IsMade (first_quotas config.now)) }
{
    let mut quotas = [0; 16];
    for owner in 0..16 {
        quotas[usize::from(owner)] = quota_for(config, owner);
    }
    Pool::make(alloc, &quotas)
}

/// What all harts keep before their first event.
pub(crate) fn first_harts(
    alloc: Global,
    image: &Image,
    config: &Config,
) -> Result<Vec<HartState>, NoMemory>
    ensures { IfOk result (λ harts.
        harts.items ≡ map (first_own image.now config.now) (range_with_len 0 image.now.harts)) }
{
    let mut harts = Vec::new(alloc);
    for hart in 0..image.harts() {
        harts.push(HartState::make(alloc, config, hold_owner(hart), first_view(image, hart))?)?;
    }
    Ok(harts)
}
