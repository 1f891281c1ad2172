use super::*;
use crate::asserts::same_at;
use rv_word::{AmoOp, Insn, LoadWidth, Reg, StoreWidth, Test};

const X5: Reg = Reg { number: 5 };

const X6: Reg = Reg { number: 6 };

const X7: Reg = Reg { number: 7 };

#[test]
fn memory_ends_before_its_end(rt: HostRuntime) {
    for (address, size, inside) in [
        (0x10000, 1, true),
        (0xffff, 1, false),
        (0x1007c, 4, true),
        (0x1007d, 4, false),
        (0x10080, 1, false),
        (0x10000, 0x80, true),
        (0x10000, 0x81, false),
        (0, ONES, false),
        (ONES, ONES, false),
    ] {
        same_at(&rt, (size, address), SPAN.holds(address, size), inside);
    }
}

/// A load of x6 from x5 on.
fn load(width: LoadWidth, offset: i32) -> Insn {
    Insn::Load {
        width,
        rd: X6,
        rs1: X5,
        offset,
    }
}

/// A store of x6 from x5 on.
fn store(width: StoreWidth, offset: i32) -> Insn {
    Insn::Store {
        width,
        rs1: X5,
        rs2: X6,
        offset,
    }
}

fn jump(rd: Reg, rs1: Reg, offset: i32) -> Insn {
    Insn::Jalr { rd, rs1, offset }
}

/// A jump where x5 is x0, or where it is not.
fn branch(test: Test, offset: i32) -> Insn {
    Insn::Branch {
        test,
        rs1: X5,
        rs2: X5,
        offset,
    }
}

fn reserve(rd: Reg, rs1: Reg) -> Insn {
    Insn::Lr {
        rd,
        rs1,
        aq: false,
        rl: false,
    }
}

fn store_reserved(rd: Reg, rs1: Reg, rs2: Reg) -> Insn {
    Insn::Sc {
        rd,
        rs1,
        rs2,
        aq: true,
        rl: true,
    }
}

fn add_to_memory(rd: Reg, rs1: Reg, rs2: Reg) -> Insn {
    Insn::Amo {
        op: AmoOp::Add,
        rd,
        rs1,
        rs2,
        aq: false,
        rl: false,
    }
}

#[test]
fn loads_trap_as_misaligned_before_they_trap_outside(rt: HostRuntime) {
    let (misaligned, outside) = (Access::Trap { cause: 4 }, Access::Trap { cause: 5 });
    let (byte, half) = (LoadWidth::Byte, LoadWidth::Half);
    let (byte_u, half_u, word) = (LoadWidth::ByteU, LoadWidth::HalfU, LoadWidth::Word);
    for (insn, x5, want) in [
        (load(word, 0), 0x10000, read(0x10000, 4)),
        (load(word, -4), 0x10080, read(0x1007c, 4)),
        (load(word, 0), 0x10080, outside),
        (load(word, -4), 0x10000, outside),
        (load(word, 0), 0x1007e, misaligned),
        (load(word, 1), 0, misaligned),
        (load(word, 0), 0, outside),
        (load(word, -1), 0, misaligned),
        (load(word, -4), 0, outside),
        (load(word, 8), 0xffff_fffc, outside),
        (load(half, -2), 0x10080, read(0x1007e, 2)),
        (load(half, -1), 0x10080, misaligned),
        (load(half, 0), 0x10080, outside),
        (load(half_u, 2), 0x10000, read(0x10002, 2)),
        (load(half_u, -1), 0, misaligned),
        (load(half_u, -2), 0, outside),
        (load(byte, -1), 0x10080, read(0x1007f, 1)),
        (load(byte, 0), 0x10080, outside),
        (load(byte, -1), 0x10000, outside),
        (load(byte_u, 3), 0x10000, read(0x10003, 1)),
        (load(byte_u, -1), 0, outside),
        (reserve(X6, X5), 0x10040, read(0x10040, 4)),
        (reserve(X6, X5), 0x10042, misaligned),
        (reserve(X6, X5), 1, misaligned),
        (reserve(X6, X5), 0x10080, outside),
    ] {
        let mut regs = Regs::zero();
        regs.set(X5, x5);
        let touched = access(&insn, PC, &regs, None, SPAN, ROOM);
        same_at(&rt, (insn, x5), touched, want);
    }
}

fn read(address: u32, len: u32) -> Access {
    Access::Read { address, len }
}

fn write(address: u32, len: u32) -> Access {
    Access::Write { address, len }
}

#[test]
fn stores_trap_as_misaligned_before_they_trap_outside(rt: HostRuntime) {
    let (misaligned, outside) = (Access::Trap { cause: 6 }, Access::Trap { cause: 7 });
    let (byte, half, word) = (StoreWidth::Byte, StoreWidth::Half, StoreWidth::Word);
    let conditional = store_reserved(X7, X5, X6);
    let add = add_to_memory(X7, X5, X6);
    for (insn, x5, reserved, want) in [
        (store(word, 0), 0x10000, None, write(0x10000, 4)),
        (store(word, -4), 0x10080, None, write(0x1007c, 4)),
        (store(word, 0), 0x10080, None, outside),
        (store(word, 2), 0x1007c, None, misaligned),
        (store(word, 2), 0, None, misaligned),
        (store(word, -4), 0, None, outside),
        (store(half, -2), 0x10080, None, write(0x1007e, 2)),
        (store(half, 1), 0, None, misaligned),
        (store(half, -2), 0x10000, None, outside),
        (store(byte, -1), 0x10080, None, write(0x1007f, 1)),
        (store(byte, 0), 0x10080, None, outside),
        (add, 0x1007c, None, write(0x1007c, 4)),
        (add, 0x1007e, None, misaligned),
        (add, 2, None, misaligned),
        (add, 0, None, outside),
        (conditional, 0x10000, Some(0x10000), write(0x10000, 4)),
        (conditional, 0x10000, None, Access::Nothing),
        (conditional, 0x10000, Some(0x10004), Access::Nothing),
        (conditional, 0x10002, Some(0x10000), misaligned),
        (conditional, 2, None, misaligned),
        (conditional, 0, None, outside),
        (conditional, 0x10080, Some(0x10000), outside),
    ] {
        let mut regs = Regs::zero();
        regs.set(X5, x5);
        let touched = access(&insn, PC, &regs, reserved, SPAN, ROOM);
        same_at(&rt, (insn, x5, reserved), touched, want);
    }
}

#[test]
fn taken_jumps_trap_where_their_target_is_no_word(rt: HostRuntime) {
    let trap = Access::Trap { cause: 0 };
    for (insn, x5, want) in [
        (Insn::Jal { rd: X6, offset: 2 }, 0, trap),
        (Insn::Jal { rd: X6, offset: -6 }, 0, trap),
        (Insn::Jal { rd: X6, offset: -4 }, 0, Access::Nothing),
        (jump(X6, X5, 0), 0x10055, Access::Nothing),
        (jump(X6, X5, 1), 0x10054, Access::Nothing),
        (jump(X6, X5, 0), 0x10056, trap),
        (jump(X6, X5, -1), 0x10058, trap),
        (jump(X6, X5, 1), ONES, Access::Nothing),
        (branch(Test::Eq, 6), 0, trap),
        (branch(Test::Geu, 8), 0, Access::Nothing),
        (branch(Test::Ne, 6), 0, Access::Nothing),
        (Insn::Ebreak, 0, Access::Trap { cause: 3 }),
        (Insn::Fence, 0, Access::Nothing),
        (
            Insn::Lui {
                rd: X6,
                imm: 0x1000,
            },
            0,
            Access::Nothing,
        ),
    ] {
        let mut regs = Regs::zero();
        regs.set(X5, x5);
        let touched = access(&insn, PC, &regs, None, SPAN, ROOM);
        same_at(&rt, (insn, x5), touched, want);
    }
}
