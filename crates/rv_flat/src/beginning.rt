ghost use Rattle.std.specs.Prelude.{◌≡◌, ◌<◌, ◌≤◌, IfOk, length, map};
ghost use Rattle.std.specs.List.{range_with_len};
ghost use Rattle.rv_flat.specs.FlatState.{first_view};

use el_base::NoMemory;
use elf_image::{Image, STACK_BYTES};
use rv_alu::abi::{A0, A1, SP};
use rv_alu::{HartStatus, HartView, Regs};
use std::alloc::Global;

/// A hart before its first step: at the entry, with its number in x10, the number of harts in x11,
/// its stack's end in x2 and 0 in the other registers (this project's profile).
#[tactic(auto, unfolding(crate::specs::FlatState::first_view))]
pub fn first_view(image: &Image, hart: u8) -> HartView
    requires { hart < image.now.harts }
    ensures { result ≡ first_view image.now hart }
{
    let mut regs = Regs::zero();
    regs.set(A0, u32::from(hart));
    regs.set(A1, u32::from(image.harts()));
    let end = image.base() + image.bytes().len() as u32;
    regs.set(SP, end - STACK_BYTES * u32::from(hart));
    HartView {
        pc: image.entry(),
        regs,
        reserved: None,
        status: HartStatus::Running,
    }
}

/// All harts before their first step.
pub fn first_views(alloc: Global, image: &Image) -> Result<Vec<HartView>, NoMemory>
    ensures exact { IfOk result (λ views. views.items ≡ map (first_view image.now) (range_with_len 0 image.now.harts)) }
    ensures few { IfOk result (λ views. length views.items ≤ 8) }
{
    let mut views = Vec::new(alloc);
    for hart in 0..image.harts() {
        views.push(first_view(image, hart))?;
    }
    Ok(views)
}
