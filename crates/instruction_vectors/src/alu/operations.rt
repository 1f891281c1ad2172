use super::*;
use crate::asserts::same_at;
use rv_word::{Alu, AmoOp, LoadWidth, Reg, Test};
use std::process::Abort;

/// Two words, their sum, difference, signed and unsigned 'less than', exclusive or, or, and, and
/// the lesser and greater of them, signed and unsigned.
const EXTREMES: &[[u32; 13]] = &[
    [0, 0, 0, 0, 0, 0, 0, 0, 0, 0, 0, 0, 0],
    [0, 1, 1, ONES, 1, 1, 1, 1, 0, 0, 1, 0, 1],
    [0, ONES, ONES, 1, 0, 1, ONES, ONES, 0, ONES, 0, 0, ONES],
    [
        0, LEAST, LEAST, LEAST, 0, 1, LEAST, LEAST, 0, LEAST, 0, 0, LEAST,
    ],
    [
        0, MOST, MOST, 0x80000001, 1, 1, MOST, MOST, 0, 0, MOST, 0, MOST,
    ],
    [1, 0, 1, 1, 0, 0, 1, 1, 0, 0, 1, 0, 1],
    [1, 1, 2, 0, 0, 0, 0, 1, 1, 1, 1, 1, 1],
    [1, ONES, 0, 2, 0, 1, 0xfffffffe, ONES, 1, ONES, 1, 1, ONES],
    [
        1, LEAST, 0x80000001, 0x80000001, 0, 1, 0x80000001, 0x80000001, 0, LEAST, 1, 1, LEAST,
    ],
    [
        1, MOST, LEAST, 0x80000002, 1, 1, 0x7ffffffe, MOST, 1, 1, MOST, 1, MOST,
    ],
    [ONES, 0, ONES, ONES, 1, 0, ONES, ONES, 0, ONES, 0, 0, ONES],
    [
        ONES, 1, 0, 0xfffffffe, 1, 0, 0xfffffffe, ONES, 1, ONES, 1, 1, ONES,
    ],
    [
        ONES, ONES, 0xfffffffe, 0, 0, 0, 0, ONES, ONES, ONES, ONES, ONES, ONES,
    ],
    [
        ONES, LEAST, MOST, MOST, 0, 0, MOST, ONES, LEAST, LEAST, ONES, LEAST, ONES,
    ],
    [
        ONES, MOST, 0x7ffffffe, LEAST, 1, 0, LEAST, ONES, MOST, ONES, MOST, MOST, ONES,
    ],
    [
        LEAST, 0, LEAST, LEAST, 1, 0, LEAST, LEAST, 0, LEAST, 0, 0, LEAST,
    ],
    [
        LEAST, 1, 0x80000001, MOST, 1, 0, 0x80000001, 0x80000001, 0, LEAST, 1, 1, LEAST,
    ],
    [
        LEAST, ONES, MOST, 0x80000001, 1, 1, MOST, ONES, LEAST, LEAST, ONES, LEAST, ONES,
    ],
    [
        LEAST, LEAST, 0, 0, 0, 0, 0, LEAST, LEAST, LEAST, LEAST, LEAST, LEAST,
    ],
    [
        LEAST, MOST, ONES, 1, 1, 0, ONES, ONES, 0, LEAST, MOST, MOST, LEAST,
    ],
    [MOST, 0, MOST, MOST, 0, 0, MOST, MOST, 0, 0, MOST, 0, MOST],
    [
        MOST, 1, LEAST, 0x7ffffffe, 0, 0, 0x7ffffffe, MOST, 1, 1, MOST, 1, MOST,
    ],
    [
        MOST, ONES, 0x7ffffffe, LEAST, 0, 1, LEAST, ONES, MOST, ONES, MOST, MOST, ONES,
    ],
    [
        MOST, LEAST, ONES, ONES, 0, 1, ONES, ONES, 0, LEAST, MOST, MOST, LEAST,
    ],
    [
        MOST, MOST, 0xfffffffe, 0, 0, 0, 0, MOST, MOST, MOST, MOST, MOST, MOST,
    ],
];

/// A word, a shift's amount, and the word shifted left, right, and right with its sign.
const SHIFTS: &[[u32; 5]] = &[
    [1, 0, 1, 1, 1],
    [1, 1, 2, 0, 0],
    [1, 31, LEAST, 0, 0],
    [1, 32, 1, 1, 1],
    [1, 33, 2, 0, 0],
    [1, ONES, LEAST, 0, 0],
    [ONES, 0, ONES, ONES, ONES],
    [ONES, 1, 0xfffffffe, MOST, ONES],
    [ONES, 31, LEAST, 1, ONES],
    [ONES, 32, ONES, ONES, ONES],
    [ONES, 33, 0xfffffffe, MOST, ONES],
    [ONES, ONES, LEAST, 1, ONES],
    [LEAST, 0, LEAST, LEAST, LEAST],
    [LEAST, 1, 0, 0x40000000, 0xc0000000],
    [LEAST, 31, 0, 1, ONES],
    [LEAST, 32, LEAST, LEAST, LEAST],
    [LEAST, 33, 0, 0x40000000, 0xc0000000],
    [LEAST, ONES, 0, 1, ONES],
    [MOST, 0, MOST, MOST, MOST],
    [MOST, 1, 0xfffffffe, 0x3fffffff, 0x3fffffff],
    [MOST, 31, LEAST, 0, 0],
    [MOST, 32, MOST, MOST, MOST],
    [MOST, 33, 0xfffffffe, 0x3fffffff, 0x3fffffff],
    [MOST, ONES, LEAST, 0, 0],
    [0x87654321, 0, 0x87654321, 0x87654321, 0x87654321],
    [0x87654321, 1, 0xeca8642, 0x43b2a190, 0xc3b2a190],
    [0x87654321, 31, LEAST, 1, ONES],
    [0x87654321, 32, 0x87654321, 0x87654321, 0x87654321],
    [0x87654321, 33, 0xeca8642, 0x43b2a190, 0xc3b2a190],
    [0x87654321, ONES, LEAST, 1, ONES],
];

/// Two words, the lower word of their product and its upper word, signed, signed by unsigned, and
/// unsigned, and then their quotient, signed and unsigned, and the remainder of each.
const PRODUCTS: &[[u32; 10]] = &[
    [0, 0, 0, 0, 0, 0, ONES, ONES, 0, 0],
    [0, 1, 0, 0, 0, 0, 0, 0, 0, 0],
    [0, ONES, 0, 0, 0, 0, 0, 0, 0, 0],
    [0, LEAST, 0, 0, 0, 0, 0, 0, 0, 0],
    [0, MOST, 0, 0, 0, 0, 0, 0, 0, 0],
    [1, 0, 0, 0, 0, 0, ONES, ONES, 1, 1],
    [1, 1, 1, 0, 0, 0, 1, 1, 0, 0],
    [1, ONES, ONES, ONES, 0, 0, ONES, 0, 0, 1],
    [1, LEAST, LEAST, ONES, 0, 0, 0, 0, 1, 1],
    [1, MOST, MOST, 0, 0, 0, 0, 0, 1, 1],
    [ONES, 0, 0, 0, 0, 0, ONES, ONES, ONES, ONES],
    [ONES, 1, ONES, ONES, ONES, 0, ONES, ONES, 0, 0],
    [ONES, ONES, 1, 0, ONES, 0xfffffffe, 1, 1, 0, 0],
    [ONES, LEAST, LEAST, 0, ONES, MOST, 0, 1, ONES, MOST],
    [
        ONES, MOST, 0x80000001, ONES, ONES, 0x7ffffffe, 0, 2, ONES, 1,
    ],
    [LEAST, 0, 0, 0, 0, 0, ONES, ONES, LEAST, LEAST],
    [LEAST, 1, LEAST, ONES, ONES, 0, LEAST, LEAST, 0, 0],
    [LEAST, ONES, LEAST, 0, LEAST, MOST, LEAST, 0, 0, LEAST],
    [
        LEAST, LEAST, 0, 0x40000000, 0xc0000000, 0x40000000, 1, 1, 0, 0,
    ],
    [
        LEAST, MOST, LEAST, 0xc0000000, 0xc0000000, 0x3fffffff, ONES, 1, ONES, 1,
    ],
    [MOST, 0, 0, 0, 0, 0, ONES, ONES, MOST, MOST],
    [MOST, 1, MOST, 0, 0, 0, MOST, MOST, 0, 0],
    [
        MOST, ONES, 0x80000001, ONES, 0x7ffffffe, 0x7ffffffe, 0x80000001, 0, 0, MOST,
    ],
    [
        MOST, LEAST, LEAST, 0xc0000000, 0x3fffffff, 0x3fffffff, 0, 0, MOST, MOST,
    ],
    [
        MOST, MOST, 1, 0x3fffffff, 0x3fffffff, 0x3fffffff, 1, 1, 0, 0,
    ],
    [7, 2, 0xe, 0, 0, 0, 3, 3, 1, 1],
    [
        0xfffffff9, 2, 0xfffffff2, ONES, ONES, 1, 0xfffffffd, 0x7ffffffc, ONES, 1,
    ],
    [7, 0xfffffffe, 0xfffffff2, ONES, 6, 6, 0xfffffffd, 0, 1, 7],
    [
        0xfffffff9, 0xfffffffe, 0xe, 0, 0xfffffff9, 0xfffffff7, 3, 0, ONES, 0xfffffff9,
    ],
    [
        0x12345678, 0x9abcdef0, 0x242d2080, 0xf8cc93d6, 0xb00ea4e, 0xb00ea4e, 0, 0, 0x12345678,
        0x12345678,
    ],
    [
        0xfffffff9, 0, 0, 0, 0, 0, ONES, ONES, 0xfffffff9, 0xfffffff9,
    ],
];

/// Loaded bytes as a number, and what LB, LH, LW, LBU and LHU put into a register.
const LOADS: &[[u32; 6]] = &[
    [0, 0, 0, 0, 0, 0],
    [1, 1, 1, 1, 1, 1],
    [0x7f, 0x7f, 0x7f, 0x7f, 0x7f, 0x7f],
    [0x80, 0xffffff80, 0x80, 0x80, 0x80, 0x80],
    [0xff, ONES, 0xff, 0xff, 0xff, 0xff],
    [0x100, 0, 0x100, 0x100, 0, 0x100],
    [0x7fff, ONES, 0x7fff, 0x7fff, 0xff, 0x7fff],
    [0x8000, 0, 0xffff8000, 0x8000, 0, 0x8000],
    [0xffff, ONES, ONES, 0xffff, 0xff, 0xffff],
    [0x17f80, 0xffffff80, 0x7f80, 0x17f80, 0x80, 0x7f80],
    [MOST, ONES, ONES, MOST, 0xff, 0xffff],
    [LEAST, 0, 0, LEAST, 0, 0],
    [ONES, ONES, ONES, ONES, 0xff, 0xffff],
];

/// The operation gives this of two words.
fn gives(rt: &impl Abort, op: Alu, left: u32, right: u32, want: u32) {
    same_at(rt, (op, left, right), alu(op, left, right), want);
}

/// The atomic operation gives this of two words.
fn leaves(rt: &impl Abort, op: AmoOp, left: u32, right: u32, want: u32) {
    same_at(rt, (op, left, right), amo(op, left, right), want);
}

/// A branch is taken or not, by this test of two words.
fn branches(rt: &impl Abort, test: Test, left: u32, right: u32, want: bool) {
    same_at(rt, (test, left, right), taken(test, left, right), want);
}

#[test]
fn operations_at_their_extremes(rt: HostRuntime) {
    for &[left, right, add, sub, slt, sltu, xor, or, and, ..] in EXTREMES {
        gives(&rt, Alu::Add, left, right, add);
        gives(&rt, Alu::Sub, left, right, sub);
        gives(&rt, Alu::Slt, left, right, slt);
        gives(&rt, Alu::Sltu, left, right, sltu);
        gives(&rt, Alu::Xor, left, right, xor);
        gives(&rt, Alu::Or, left, right, or);
        gives(&rt, Alu::And, left, right, and);
    }
}

#[test]
fn atomic_operations_at_their_extremes(rt: HostRuntime) {
    for &[
        left,
        right,
        add,
        _,
        _,
        _,
        xor,
        or,
        and,
        min,
        max,
        minu,
        maxu,
    ] in EXTREMES {
        leaves(&rt, AmoOp::Swap, left, right, right);
        leaves(&rt, AmoOp::Add, left, right, add);
        leaves(&rt, AmoOp::Xor, left, right, xor);
        leaves(&rt, AmoOp::And, left, right, and);
        leaves(&rt, AmoOp::Or, left, right, or);
        leaves(&rt, AmoOp::Min, left, right, min);
        leaves(&rt, AmoOp::Max, left, right, max);
        leaves(&rt, AmoOp::Minu, left, right, minu);
        leaves(&rt, AmoOp::Maxu, left, right, maxu);
    }
}

#[test]
fn branches_at_the_extremes(rt: HostRuntime) {
    for &[left, right, _, sub, slt, sltu, ..] in EXTREMES {
        branches(&rt, Test::Eq, left, right, sub == 0);
        branches(&rt, Test::Ne, left, right, sub != 0);
        branches(&rt, Test::Lt, left, right, slt == 1);
        branches(&rt, Test::Ge, left, right, slt == 0);
        branches(&rt, Test::Ltu, left, right, sltu == 1);
        branches(&rt, Test::Geu, left, right, sltu == 0);
    }
}

#[test]
fn shifts_take_the_low_five_bits(rt: HostRuntime) {
    for &[word, amount, sll, srl, sra] in SHIFTS {
        gives(&rt, Alu::Sll, word, amount, sll);
        gives(&rt, Alu::Srl, word, amount, srl);
        gives(&rt, Alu::Sra, word, amount, sra);
    }
}

#[test]
fn products_and_quotients(rt: HostRuntime) {
    for [left, right, mul, mulh, mulhsu, mulhu, div, divu, rem, remu] in PRODUCTS {
        gives(&rt, Alu::Mul, *left, *right, *mul);
        gives(&rt, Alu::Mulh, *left, *right, *mulh);
        gives(&rt, Alu::Mulhsu, *left, *right, *mulhsu);
        gives(&rt, Alu::Mulhu, *left, *right, *mulhu);
        gives(&rt, Alu::Div, *left, *right, *div);
        gives(&rt, Alu::Divu, *left, *right, *divu);
        gives(&rt, Alu::Rem, *left, *right, *rem);
        gives(&rt, Alu::Remu, *left, *right, *remu);
    }
}

#[test]
fn loads_extend_by_sign_or_zeros(rt: HostRuntime) {
    for &[raw, byte, half, word, byte_u, half_u] in LOADS {
        for (width, want) in [
            (LoadWidth::Byte, byte),
            (LoadWidth::Half, half),
            (LoadWidth::Word, word),
            (LoadWidth::ByteU, byte_u),
            (LoadWidth::HalfU, half_u),
        ] {
            same_at(&rt, (width, raw), extend(width, raw), want);
        }
    }
}

#[test]
fn register_0_stays_0(rt: HostRuntime) {
    let mut regs = Regs::zero();
    for number in 0..32 {
        if let Some(reg) = Reg::new(number) {
            regs.set(reg, ONES);
            same_at(
                &rt,
                number,
                regs.get(reg),
                if number == 0 { 0 } else { ONES },
            );
        }
    }
}
