//! Words from the assembler `riscv64-unknown-elf-as -march=rv32ia -mabi=ilp32` of GNU binutils 2.40, each with
//! the line that it was given.
ghost use Rattle.std.specs.Prelude.{◌≡◌, ◌+◌, ◌<◌, ◌≤◌, [], length, OnOk};

use self::Row::{Branch, Jump};
use crate::asserts::{same, same_at};
use el_base::NoMemory;
use rv_asm::*;
use rv_word::Test::{Eq, Ge, Geu, Lt, Ltu, Ne};
use rv_word::{Alu, Insn, Reg, Test};
use std::alloc::Global;
use std::test::Fail;

/// A branch or jump with the numbers of its registers and of its label, of which there are four.
#[derive(Clone, Copy)]
enum Row {
    Branch(Test, u8, u8, u32),
    Jump(u8, u32),
}

/// What the assembler writes of these, of which the first stands at the label L0.
const AT_L0: [(u32, Row); 12] = [
    // beq x16, x22, L0
    (0x0168_0063, Branch(Eq, 16, 22, 0)),
    // bne x29, x15, L0
    (0xfefe_9ee3, Branch(Ne, 29, 15, 0)),
    // blt x10, x7, L1
    (0x7e75_4c63, Branch(Lt, 10, 7, 1)),
    // jal x30, L0
    (0xff5f_ff6f, Jump(30, 0)),
    // bltu x15, x24, L0
    (0xff87_e8e3, Branch(Ltu, 15, 24, 0)),
    // bgeu x15, x0, L0
    (0xfe07_f6e3, Branch(Geu, 15, 0, 0)),
    // beq x26, x17, L0
    (0xff1d_04e3, Branch(Eq, 26, 17, 0)),
    // jal x24, L2
    (0x7950_0c6f, Jump(24, 2)),
    // blt x10, x4, L0
    (0xfe45_40e3, Branch(Lt, 10, 4, 0)),
    // bge x28, x8, L0
    (0xfc8e_5ee3, Branch(Ge, 28, 8, 0)),
    // bltu x0, x0, L0
    (0xfc00_6ce3, Branch(Ltu, 0, 0, 0)),
    // jal x13, L0
    (0xfd5f_f6ef, Jump(13, 0)),
];

/// What the assembler writes of these, of which the first stands at the label L1.
const AT_L1: [(u32, Row); 12] = [
    // bne x10, x10, L1
    (0x00a5_1063, Branch(Ne, 10, 10, 1)),
    // blt x20, x12, L2
    (0x7aca_4663, Branch(Lt, 20, 12, 2)),
    // bge x13, x11, L2
    (0x7ab6_d463, Branch(Ge, 13, 11, 2)),
    // jal x12, L1
    (0xff5f_f66f, Jump(12, 1)),
    // bgeu x24, x19, L0
    (0xff3c_7863, Branch(Geu, 24, 19, 0)),
    // beq x23, x26, L0
    (0xffab_8663, Branch(Eq, 23, 26, 0)),
    // bne x9, x16, L0
    (0xff04_9463, Branch(Ne, 9, 16, 0)),
    // jal x21, L3
    (0x4040_aaef, Jump(21, 3)),
    // bge x19, x0, L2
    (0x7809_d863, Branch(Ge, 19, 0, 2)),
    // bltu x21, x4, L1
    (0xfc4a_eee3, Branch(Ltu, 21, 4, 1)),
    // bgeu x22, x19, L1
    (0xfd3b_7ce3, Branch(Geu, 22, 19, 1)),
    // jal x20, L1
    (0xfd5f_fa6f, Jump(20, 1)),
];

/// What the assembler writes of these, of which the first stands at the label L2.
const AT_L2: [(u32, Row); 12] = [
    // blt x11, x30, L2
    (0x01e5_c063, Branch(Lt, 11, 30, 2)),
    // bge x11, x3, L2
    (0xfe35_dee3, Branch(Ge, 11, 3, 2)),
    // bltu x1, x22, L2
    (0xff60_ece3, Branch(Ltu, 1, 22, 2)),
    // jal x1, L2
    (0xff5f_f0ef, Jump(1, 2)),
    // beq x26, x23, L2
    (0xff7d_08e3, Branch(Eq, 26, 23, 2)),
    // bne x0, x28, L1
    (0x83c0_1ee3, Branch(Ne, 0, 28, 1)),
    // blt x11, x12, L1
    (0x82c5_cce3, Branch(Lt, 11, 12, 1)),
    // jal x15, L0
    (0x834f_f7ef, Jump(15, 0)),
    // bltu x29, x22, L2
    (0xff6e_e0e3, Branch(Ltu, 29, 22, 2)),
    // bgeu x16, x29, L1
    (0x83d8_76e3, Branch(Geu, 16, 29, 1)),
    // beq x23, x18, L1
    (0x832b_84e3, Branch(Eq, 23, 18, 1)),
    // jal x27, L2
    (0xfd5f_fdef, Jump(27, 2)),
];

/// What the assembler writes of these, of which the first stands at the label L3.
const AT_L3: [(u32, Row); 12] = [
    // bge x5, x13, L3
    (0x00d2_d063, Branch(Ge, 5, 13, 3)),
    // bltu x23, x9, L3
    (0xfe9b_eee3, Branch(Ltu, 23, 9, 3)),
    // bgeu x17, x5, L3
    (0xfe58_fce3, Branch(Geu, 17, 5, 3)),
    // jal x20, L3
    (0xff5f_fa6f, Jump(20, 3)),
    // bne x19, x11, L3
    (0xfeb9_98e3, Branch(Ne, 19, 11, 3)),
    // blt x9, x19, L3
    (0xff34_c6e3, Branch(Lt, 9, 19, 3)),
    // bge x10, x3, L3
    (0xfe35_54e3, Branch(Ge, 10, 3, 3)),
    // jal x25, L1
    (0xbc5f_5cef, Jump(25, 1)),
    // bgeu x2, x15, L3
    (0xfef1_70e3, Branch(Geu, 2, 15, 3)),
    // beq x16, x29, L3
    (0xfdd8_0ee3, Branch(Eq, 16, 29, 3)),
    // bne x9, x3, L3
    (0xfc34_9ce3, Branch(Ne, 9, 3, 3)),
    // jal x31, L3
    (0xfd5f_ffef, Jump(31, 3)),
];

/// `addi x0,x0,0`
const NOP: u32 = 0x0000_0013;

fn x(number: u8) -> Reg {
    Reg {
        number: number % 32,
    }
}

/// The label of a number below four.
fn label(number: u32) -> Label
    ensures { result.number < 4 }
{
    Label { number: number % 4 }
}

fn put(asm: &mut Asm, rows: &[(u32, Row)]) -> Result<(), NoMemory>
    requires labels { length asm.old.places ≡ 4 }
    requires room { length asm.old.items + length rows.now ≤ MOST_WORDS }
    ensures places { OnOk result (asm.new.places ≡ asm.old.places) }
    ensures items { OnOk result (length asm.new.items ≡ length asm.old.items + length rows.now) }
{
    for (_, row) in rows {
        match *row {
            Branch(test, rs1, rs2, number) => asm.branch(test, x(rs1), x(rs2), label(number))?,
            Jump(rd, number) => asm.jump(x(rd), label(number))?,
        }
    }
    Ok(())
}

/// So many instructions that do nothing.
fn fill(asm: &mut Asm, count: u32) -> Result<(), NoMemory>
    requires { length asm.old.items + count ≤ MOST_WORDS }
    ensures places { OnOk result (asm.new.places ≡ asm.old.places) }
    ensures items { OnOk result (length asm.new.items ≡ length asm.old.items + count) }
{
    for _place in 0..count {
        asm.insn(Insn::OpImm {
            op: Alu::Add,
            rd: x(0),
            rs1: x(0),
            imm: 0,
        })?;
    }
    Ok(())
}

/// All rows, each list behind its label, with other words between them.
fn put_all(asm: &mut Asm) -> Result<(), NoMemory>
    requires { asm.old ≡ record { items = []; places = [] } }
{
    let first = asm.label()?;
    let second = asm.label()?;
    let third = asm.label()?;
    let fourth = asm.label()?;
    asm.place(first)?;
    put(asm, &AT_L0)?;
    fill(asm, 500)?;
    asm.place(second)?;
    put(asm, &AT_L1)?;
    fill(asm, 480)?;
    asm.place(third)?;
    put(asm, &AT_L2)?;
    fill(asm, 10_000)?;
    asm.place(fourth)?;
    put(asm, &AT_L3)
}

#[test]
fn words_agree_with_the_assembler(rt: HostRuntime) -> Result<(), Fail> {
    let mut asm = Asm::make(rt.alloc())?;
    put_all(&mut asm)?;
    let words = asm.finish()?;
    same(&rt, words.len(), 11_028);
    let mut written = words.iter().filter(|word| **word != NOP);
    for rows in [AT_L0, AT_L1, AT_L2, AT_L3] {
        for (word, _) in rows {
            same_at(&rt, word, written.next().copied(), Some(word));
        }
    }
    same(&rt, written.next(), None);
    Ok(())
}

/// The words of a branch or jump over so many others.
fn over(alloc: Global, jumps: bool, others: u32) -> Result<Vec<u32>, AsmFault>
    requires { others < MOST_WORDS }
{
    let mut asm = Asm::make(alloc)?;
    let end = asm.label()?;
    if jumps {
        asm.jump(x(1), end)?;
    } else {
        asm.branch(Eq, x(5), x(6), end)?;
    }
    fill(&mut asm, others)?;
    asm.place(end)?;
    asm.finish()
}

/// The words of a branch or jump back over so many others.
fn back(alloc: Global, jumps: bool, others: u32) -> Result<Vec<u32>, AsmFault>
    requires { others < MOST_WORDS }
{
    let mut asm = Asm::make(alloc)?;
    let start = asm.label()?;
    asm.place(start)?;
    fill(&mut asm, others)?;
    if jumps {
        asm.jump(x(1), start)?;
    } else {
        asm.branch(Eq, x(5), x(6), start)?;
    }
    asm.finish()
}

#[test]
fn forward_offsets_reach_so_far(rt: HostRuntime) -> Result<(), Fail> {
    // beq x5,x6,.+4092 and jal x1,.+1048572
    for (jumps, most, word) in [(false, 1_022, 0x7e62_8ee3), (true, 262_142, 0x7fdf_f0ef)] {
        let words = over(rt.alloc(), jumps, most)?;
        same(&rt, words.first().copied(), Some(word));
        let far = over(rt.alloc(), jumps, most + 1);
        same(&rt, far.err(), Some(AsmFault::Far { place: 0 }));
    }
    Ok(())
}

#[test]
fn backward_offsets_reach_so_far(rt: HostRuntime) -> Result<(), Fail> {
    // beq x5,x6,.-4096 and jal x1,.-1048576
    for (jumps, most, word) in [(false, 1_024, 0x8062_8063), (true, 262_144, 0x8000_00ef)] {
        let words = back(rt.alloc(), jumps, most)?;
        same(&rt, words.last().copied(), Some(word));
        let far = back(rt.alloc(), jumps, most + 1);
        same(&rt, far.err(), Some(AsmFault::Far { place: most + 1 }));
    }
    Ok(())
}

#[test]
fn labels_without_a_place_are_told_first(rt: HostRuntime) -> Result<(), Fail> {
    let mut asm = Asm::make(rt.alloc())?;
    let only = asm.label()?;
    asm.jump(x(0), only)?;
    same(
        &rt,
        asm.finish().err(),
        Some(AsmFault::Unplaced { label: 0 }),
    );

    // the second of four labels is never used, and the branch to the first is too far
    let mut asm = Asm::make(rt.alloc())?;
    let first = asm.label()?;
    let _second = asm.label()?;
    let third = asm.label()?;
    let fourth = asm.label()?;
    asm.place(first)?;
    fill(&mut asm, 2_000)?;
    asm.branch(Ne, x(1), x(2), first)?;
    asm.jump(x(0), fourth)?;
    asm.jump(x(0), third)?;
    same(
        &rt,
        asm.finish().err(),
        Some(AsmFault::Unplaced { label: 2 }),
    );
    Ok(())
}

#[test]
fn a_label_that_is_not_used_needs_no_place(rt: HostRuntime) -> Result<(), Fail> {
    let mut asm = Asm::make(rt.alloc())?;
    let _unused = asm.label()?;
    asm.insn(Insn::Ecall)?;
    asm.insn(Insn::Fence)?;
    // mul x10,x11,x12
    asm.insn(Insn::Op {
        op: Alu::Mul,
        rd: x(10),
        rs1: x(11),
        rs2: x(12),
    })?;
    let words = asm.finish()?;
    let wanted = [0x0000_0073, 0x0ff0_000f, 0x02c5_8533];
    same(&rt, words.as_slice(), wanted.as_slice());
    Ok(())
}
