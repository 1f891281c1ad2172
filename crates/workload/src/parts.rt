//! What workloads are made of.

ghost use Rattle.std.specs.Prelude.{◌≡◌, ◌<◌, IfOk, OnOk};
ghost use Rattle.rv_word.specs.Validity.{FitsSignedBits};
ghost use Rattle.workload.specs.Extent.{HasRoom, extent, grown};
ghost use Rattle.workload.specs.Mnemonics.{address, li};
ghost use Rattle.workload.specs.Parts as parts;
ghost use Rattle.workload.specs.Putting as listed;

use crate::layout::{DATA_START, NUMBER};
use crate::mnemonics::{
    add, addi, amoswap_w_aq, amoswap_w_rl, andi, lr_w, lui, lw, sc_w, slli, sltiu, srli, sw, xor,
};
use crate::program::Program;
use crate::registers::Register;
use crate::registers::Register::{A0, A7, Data, Hart, State, T0, T1, T2, Zero};
use el_base::NoMemory;
use rv_asm::Label;
use rv_word::{Insn, Test};

/// A small number into a register.
pub fn small(program: &mut Program, rd: Register, number: i32) -> Result<(), NoMemory>
    requires fits { FitsSignedBits 12 number }
    requires room { HasRoom (extent program.old) 1 0 }
    ensures size { OnOk result (extent program.new ≡ grown (extent program.old) 1 0) }
    ensures listed { OnOk result (program.new ≡ listed.put (li rd number) program.old) }
{
    program.put(addi(rd, Zero, number))
}

/// The address of a place in the data into a register.
pub fn data_address(program: &mut Program, rd: Register, place: i32) -> Result<(), NoMemory>
    requires fits { FitsSignedBits 12 place }
    requires room { HasRoom (extent program.old) 1 0 }
    ensures size { OnOk result (extent program.new ≡ grown (extent program.old) 1 0) }
    ensures listed { OnOk result (program.new ≡ listed.put (address rd place) program.old) }
{
    program.put(addi(rd, Data, place))
}

/// Counts a register down by 1, and goes back to the label unless that gives 0.
#[tactic(auto, unfolding(crate::specs::Parts::again))]
pub fn again(program: &mut Program, left: Register, label: Label) -> Result<(), NoMemory>
    requires made { label.number < (extent program.old).labels }
    requires room { HasRoom (extent program.old) 2 0 }
    ensures size { OnOk result (extent program.new ≡ grown (extent program.old) 2 0) }
    ensures listed { OnOk result (program.new ≡ parts.again left label program.old) }
{
    program.put(addi(left, left, -1))?;
    program.branch(Test::Ne, left, Zero, label)
}

/// The end of every hart: it exits with 0. Gives the label that a hart goes back to for that.
#[tactic(auto, unfolding(crate::specs::Parts::leave))]
pub fn leave(program: &mut Program) -> Result<Label, NoMemory>
    requires { HasRoom (extent program.old) 3 1 }
    ensures made { IfOk result (λ label. label.number ≡ (extent program.old).labels) }
    ensures label { IfOk result (λ label. label ≡ listed.next_label program.old) }
    ensures size { OnOk result (extent program.new ≡ grown (extent program.old) 3 1) }
    ensures listed { OnOk result (program.new ≡ parts.leave program.old) }
{
    let leave = program.here()?;
    small(program, A0, 0)?;
    small(program, A7, 93)?;
    program.put(Insn::Ecall)?;
    Ok(leave)
}

/// The start of every hart: it finds the data.
#[tactic(auto, unfolding(crate::specs::Parts::start))]
pub fn start(program: &mut Program) -> Result<(), NoMemory>
    requires { HasRoom (extent program.old) 1 0 }
    ensures size { OnOk result (extent program.new ≡ grown (extent program.old) 1 0) }
    ensures listed { OnOk result (program.new ≡ parts.start program.old) }
{
    program.put(lui(Data, DATA_START))
}

/// Takes the lock at an address: the spinlock that the RISC-V unprivileged manual gives as an example in
/// 'A Standard Extension for Atomic Instructions'.
#[tactic(auto, unfolding(crate::specs::Parts::take_lock))]
pub fn take_lock(program: &mut Program, lock: Register) -> Result<(), NoMemory>
    requires { HasRoom (extent program.old) 5 1 }
    ensures size { OnOk result (extent program.new ≡ grown (extent program.old) 5 1) }
    ensures listed { OnOk result (program.new ≡ parts.take_lock lock program.old) }
{
    small(program, T0, 1)?;
    let held = program.here()?;
    program.put(lw(T1, 0, lock))?;
    program.branch(Test::Ne, T1, Zero, held)?;
    program.put(amoswap_w_aq(T1, T0, lock))?;
    program.branch(Test::Ne, T1, Zero, held)
}

/// Takes the lock at an address by a pair of LR.W and SC.W (the same chapter, 'Load-Reserved/Store-Conditional
/// Instructions'): where the word is 0 and still reserved, 1 is stored. LR.W needs no acquire bit, since the accesses of
/// a hart take effect in their order (this project's profile).
#[tactic(auto, unfolding(crate::specs::Parts::take_lock_by_pair))]
pub fn take_lock_by_pair(program: &mut Program, lock: Register) -> Result<(), NoMemory>
    requires { HasRoom (extent program.old) 5 1 }
    ensures size { OnOk result (extent program.new ≡ grown (extent program.old) 5 1) }
    ensures listed { OnOk result (program.new ≡ parts.take_lock_by_pair lock program.old) }
{
    small(program, T0, 1)?;
    let held = program.here()?;
    program.put(lr_w(T1, lock))?;
    program.branch(Test::Ne, T1, Zero, held)?;
    program.put(sc_w(T1, T0, lock))?;
    program.branch(Test::Ne, T1, Zero, held)
}

/// How a lock is taken.
#[derive(Clone, Copy, Debug, PartialEq, Eq)]
pub enum Taking {
    /// As [`take_lock`] does it.
    BySwap,
    /// As [`take_lock_by_pair`] does it.
    ByPair,
}

/// Takes the lock at an address, in one way or the other.
pub fn take(program: &mut Program, taking: Taking, lock: Register) -> Result<(), NoMemory>
    requires { HasRoom (extent program.old) 5 1 }
    ensures size { OnOk result (extent program.new ≡ grown (extent program.old) 5 1) }
    ensures listed { OnOk result (program.new ≡ parts.take taking lock program.old) }
{
    match taking {
        Taking::BySwap => take_lock(program, lock),
        Taking::ByPair => take_lock_by_pair(program, lock),
    }
}

/// Gives the lock at an address back.
#[tactic(auto, unfolding(crate::specs::Parts::give_lock))]
pub fn give_lock(program: &mut Program, lock: Register) -> Result<(), NoMemory>
    requires { HasRoom (extent program.old) 1 0 }
    ensures size { OnOk result (extent program.new ≡ grown (extent program.old) 1 0) }
    ensures listed { OnOk result (program.new ≡ parts.give_lock lock program.old) }
{
    program.put(amoswap_w_rl(Zero, Zero, lock))
}

/// Adds a number to the word at an address.
#[tactic(auto, unfolding(crate::specs::Parts::add_to_word))]
pub fn add_to_word(program: &mut Program, word: Register, number: i32) -> Result<(), NoMemory>
    requires fits { FitsSignedBits 12 number }
    requires room { HasRoom (extent program.old) 3 0 }
    ensures size { OnOk result (extent program.new ≡ grown (extent program.old) 3 0) }
    ensures listed { OnOk result (program.new ≡ parts.add_to_word word number program.old) }
{
    program.put(lw(T0, 0, word))?;
    program.put(addi(T0, T0, number))?;
    program.put(sw(T0, 0, word))
}

/// What a hart draws from first: the number of the workload, exclusive or the hart's number and 1 times
/// `0x9e3779b9`, and 1 where that is 0.
#[tactic(auto, unfolding(crate::specs::Parts::seed))]
pub fn seed(program: &mut Program) -> Result<(), NoMemory>
    requires { HasRoom (extent program.old) 11 1 }
    ensures size { OnOk result (extent program.new ≡ grown (extent program.old) 11 1) }
    ensures listed { OnOk result (program.new ≡ parts.seed program.old) }
{
    program.put(lui(T0, 0x9e37_8000))?;
    program.put(addi(T0, T0, -0x647))?;
    program.put(addi(T1, Hart, 1))?;
    small(program, State, 0)?;
    let times = program.here()?;
    program.put(add(State, State, T0))?;
    again(program, T1, times)?;
    program.put(lw(T0, NUMBER, Data))?;
    program.put(xor(State, State, T0))?;
    program.put(sltiu(T0, State, 1))?;
    program.put(add(State, State, T0))
}

/// Draws the next number, by Marsaglia's xorshift, of which the mask says the bits that are kept, and makes it the
/// address of that line of the data.
#[tactic(auto, unfolding(crate::specs::Parts::draw_line))]
pub fn draw_line(program: &mut Program, rd: Register, mask: i32) -> Result<(), NoMemory>
    requires fits { FitsSignedBits 12 mask }
    requires room { HasRoom (extent program.old) 9 0 }
    ensures size { OnOk result (extent program.new ≡ grown (extent program.old) 9 0) }
    ensures listed { OnOk result (program.new ≡ parts.draw_line rd mask program.old) }
{
    program.put(slli(T2, State, 13))?;
    program.put(xor(State, State, T2))?;
    program.put(srli(T2, State, 17))?;
    program.put(xor(State, State, T2))?;
    program.put(slli(T2, State, 5))?;
    program.put(xor(State, State, T2))?;
    program.put(andi(rd, State, mask))?;
    program.put(slli(rd, rd, 6))?;
    program.put(add(rd, rd, Data))
}
