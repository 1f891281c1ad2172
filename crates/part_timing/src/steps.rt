//! Steps of one hart: the same instruction 1,023 times and a jump back, over and over.

ghost use Rattle.std.specs.Prelude.{◌≡◌, IfOk};

use crate::one_line::OneLine;
use crate::part::Insn;
use core_step::run_insn;
use el_base::{HartId, line_of};
use elf_image::{Built, Image, load, write_image};
use rv_alu::{HartStatus, HartView, Span};
use rv_flat::{Flat, first_view};
use rv_word::Reg;
use std::alloc::{AllocError, Global};

/// How often the instruction stands in the code.
const TIMES: usize = 1_023;

/// `jal x0, -4092`, back to the first of them.
const JUMP_BACK: u32 = 0x804f_f06f;

/// The room of an output that has taken nothing.
const ROOM: u32 = 16_777_216;

/// The register that the instructions change or store.
const X7: Reg = Reg { number: 7 };

/// The word of an instruction.
fn word_of(insn: Insn) -> u32 {
    match insn {
        Insn::Addi => 0x0033_8393,
        Insn::Add => 0x0021_03b3,
        Insn::Mul => 0x0221_03b3,
        Insn::Div => 0x0221_43b3,
        Insn::Load => 0xfc01_2383,
        Insn::Store => 0xfc71_2023,
    }
}

/// The program for one hart.
#[tactic(auto, unfolding(elf_image::specs::Loaded::program_of))]
fn program(alloc: Global, insn: Insn) -> Result<Image, AllocError>
    ensures { IfOk result (λ image. image.harts ≡ 1) }
{
    let mut words = vec![in alloc; word_of(insn); TIMES + 1]?;
    words[TIMES] = JUMP_BACK;
    let built = Built {
        base: 0x10000,
        words,
        bytes: Vec::new(alloc),
        zeros: 64,
        entry: 0x10000,
    };
    match write_image(alloc, &built) {
        Ok(file) => match load(alloc, &file, 1) {
            Ok(image) => Ok(image),
            Err(_) => Err(AllocError),
        },
        Err(_) => Err(AllocError),
    }
}

/// What a hart has come to, as one number.
fn sum_of(view: &HartView) -> u32 {
    view.pc.wrapping_add(view.regs.get(X7))
}

/// Steps on plain shared memory.
pub fn flat(alloc: Global, insn: Insn, count: u32) -> Result<u32, AllocError> {
    let image = program(alloc, insn)?;
    let mut flat = Flat::make(alloc, &image).map_err(|_| AllocError)?;
    let hart = HartId { number: 0 };
    for _ in 0..count {
        if usize::from(hart.number) < flat.harts() {
            flat.step(hart);
        }
    }
    if usize::from(hart.number) < flat.harts() {
        Ok(sum_of(&flat.hart(hart)))
    } else {
        Ok(0)
    }
}

/// The same steps over a port of the line that the instructions touch.
pub fn port(alloc: Global, insn: Insn, count: u32) -> Result<u32, AllocError> {
    let image = program(alloc, insn)?;
    let span = Span {
        base: image.base(),
        end: image.base() + image.bytes().len() as u32,
    };
    let mut port = OneLine {
        line: line_of(span.end.wrapping_sub(64)),
        bytes: [0; 64],
    };
    let mut view = first_view(&image, 0);
    for _ in 0..count {
        if view.status == HartStatus::Running {
            let word = image.code_word(view.pc);
            run_insn(&mut port, &mut view, word, span, ROOM);
        }
    }
    Ok(sum_of(&view))
}
