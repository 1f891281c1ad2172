//! The end of a run: the harts wait for each other, and hart 0 tells the result.

ghost use Rattle.std.specs.Prelude.{◌≡◌, ◌<◌, OnOk};
ghost use Rattle.rv_word.specs.Validity.{FitsSignedBits};
ghost use Rattle.workload.specs.Extent.{HasRoom, extent, grown};
ghost use Rattle.workload.specs.Ending as endings;

use crate::layout::{DIGITS, DONE, TEXT, WORDS};
use crate::mnemonics::{add, addi, amoadd_w_rl, lbu, lw, sb, slli, srli};
use crate::parts::{again, data_address, small};
use crate::program::Program;
use crate::registers::Register::{
    A0, A1, A2, A7, Data, Hart, Harts, Left, Sum, T0, T1, T2, Word, Zero,
};
use el_base::NoMemory;
use rv_asm::Label;
use rv_word::{Insn, Test};

/// Each hart says that it is done. Every hart but 0 leaves; hart 0 waits until all are done, tells the sum of so many
/// words, and leaves.
#[tactic(auto, unfolding(crate::specs::Ending::ending))]
pub fn ending(program: &mut Program, words: i32, leave: Label) -> Result<(), NoMemory>
    requires fits { FitsSignedBits 12 words }
    requires made { leave.number < (extent program.old).labels }
    requires room { HasRoom (extent program.old) 33 3 }
    ensures size { OnOk result (extent program.new ≡ grown (extent program.old) 33 3) }
    ensures listed { OnOk result (program.new ≡ endings.ending words leave program.old) }
{
    say_done(program)?;
    program.branch(Test::Ne, Hart, Zero, leave)?;
    wait_for_all(program)?;
    sum_words(program, words)?;
    tell_sum(program)?;
    program.jump(Zero, leave)
}

/// Counts the hart as done.
#[tactic(auto, unfolding(crate::specs::Ending::say_done))]
fn say_done(program: &mut Program) -> Result<(), NoMemory>
    requires { HasRoom (extent program.old) 3 0 }
    ensures size { OnOk result (extent program.new ≡ grown (extent program.old) 3 0) }
    ensures listed { OnOk result (program.new ≡ endings.say_done program.old) }
{
    data_address(program, T0, DONE)?;
    small(program, T1, 1)?;
    program.put(amoadd_w_rl(Zero, T1, T0))
}

/// Waits until all harts are done.
#[tactic(auto, unfolding(crate::specs::Ending::wait_for_all))]
fn wait_for_all(program: &mut Program) -> Result<(), NoMemory>
    requires { HasRoom (extent program.old) 3 1 }
    ensures size { OnOk result (extent program.new ≡ grown (extent program.old) 3 1) }
    ensures listed { OnOk result (program.new ≡ endings.wait_for_all program.old) }
{
    let wait = program.here()?;
    program.put(lw(T0, DONE, Data))?;
    program.branch(Test::Ne, T0, Harts, wait)?;
    program.put(Insn::Fence)
}

/// Adds so many words up.
#[tactic(auto, unfolding(crate::specs::Ending::sum_words))]
fn sum_words(program: &mut Program, words: i32) -> Result<(), NoMemory>
    requires fits { FitsSignedBits 12 words }
    requires room { HasRoom (extent program.old) 8 1 }
    ensures size { OnOk result (extent program.new ≡ grown (extent program.old) 8 1) }
    ensures listed { OnOk result (program.new ≡ endings.sum_words words program.old) }
{
    data_address(program, Word, WORDS)?;
    small(program, Left, words)?;
    small(program, Sum, 0)?;
    let next = program.here()?;
    program.put(lw(T0, 0, Word))?;
    program.put(add(Sum, Sum, T0))?;
    program.put(addi(Word, Word, 64))?;
    again(program, Left, next)
}

/// Puts the sum out: eight lower-case hexadecimal digits and a newline.
#[tactic(auto, unfolding(crate::specs::Ending::tell_sum))]
fn tell_sum(program: &mut Program) -> Result<(), NoMemory>
    requires { HasRoom (extent program.old) 17 1 }
    ensures size { OnOk result (extent program.new ≡ grown (extent program.old) 17 1) }
    ensures listed { OnOk result (program.new ≡ endings.tell_sum program.old) }
{
    data_address(program, T0, TEXT)?;
    small(program, T1, 8)?;
    let next = program.here()?;
    program.put(srli(T2, Sum, 28))?;
    program.put(add(T2, T2, Data))?;
    program.put(lbu(T2, DIGITS, T2))?;
    program.put(sb(T2, 0, T0))?;
    program.put(slli(Sum, Sum, 4))?;
    program.put(addi(T0, T0, 1))?;
    again(program, T1, next)?;
    small(program, T2, 10)?;
    program.put(sb(T2, 0, T0))?;
    write_text(program)
}

/// The system call that writes the text.
#[tactic(auto, unfolding(crate::specs::Ending::write_text))]
fn write_text(program: &mut Program) -> Result<(), NoMemory>
    requires { HasRoom (extent program.old) 5 0 }
    ensures size { OnOk result (extent program.new ≡ grown (extent program.old) 5 0) }
    ensures listed { OnOk result (program.new ≡ endings.write_text program.old) }
{
    small(program, A0, 1)?;
    data_address(program, A1, TEXT)?;
    small(program, A2, 9)?;
    small(program, A7, 64)?;
    program.put(Insn::Ecall)
}
