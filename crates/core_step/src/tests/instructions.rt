use super::*;

/// Instructions that touch no memory, the register that they write and its word, and the pc after them.
const OPERATIONS: [(u32, (u8, u32), u32); 31] = [
    // lui x8, 0x87654
    (0x87654437, (8, 0x8765_4000), 0x10004),
    // auipc x8, 0xfffff
    (0xfffff417, (8, 0xf000), 0x10004),
    // jal x8, .+12
    (0x00c0046f, (8, 0x10004), 0x1000c),
    // jalr x8, x5, 5
    (0x00528467, (8, 0x10004), 0x1004c),
    // beq x6, x6, .-8
    (0xfe630ce3, (0, 0), 0xfff8),
    // bne x6, x6, .-8
    (0xfe631ce3, (0, 0), 0x10004),
    // blt x6, x7, .-8
    (0xfe734ce3, (0, 0), 0xfff8),
    // bge x6, x7, .-8
    (0xfe735ce3, (0, 0), 0x10004),
    // bltu x7, x6, .-8
    (0xfe63ece3, (0, 0), 0x10004),
    // bgeu x7, x6, .-8
    (0xfe63fce3, (0, 0), 0xfff8),
    // addi x8, x6, -5
    (0xffb30413, (8, 0x8765_431c), 0x10004),
    // slti x8, x6, -5
    (0xffb32413, (8, 1), 0x10004),
    // sltiu x8, x6, -5
    (0xffb33413, (8, 1), 0x10004),
    // xori x8, x6, -5
    (0xffb34413, (8, 0x789a_bcda), 0x10004),
    // ori x8, x6, 0x7f
    (0x07f36413, (8, 0x8765_437f), 0x10004),
    // andi x8, x6, -5
    (0xffb37413, (8, 0x8765_4321), 0x10004),
    // slli x8, x6, 4
    (0x00431413, (8, 0x7654_3210), 0x10004),
    // srli x8, x6, 4
    (0x00435413, (8, 0x0876_5432), 0x10004),
    // srai x8, x6, 4
    (0x40435413, (8, 0xf876_5432), 0x10004),
    // add x8, x6, x7
    (0x00730433, (8, 0x8765_431a), 0x10004),
    // sub x8, x6, x7
    (0x40730433, (8, 0x8765_4328), 0x10004),
    // sll x8, x6, x7
    (0x00731433, (8, 0x4200_0000), 0x10004),
    // slt x8, x6, x7
    (0x00732433, (8, 1), 0x10004),
    // sltu x8, x7, x6
    (0x0063b433, (8, 0), 0x10004),
    // xor x8, x6, x7
    (0x00734433, (8, 0x789a_bcd8), 0x10004),
    // srl x8, x6, x7
    (0x00735433, (8, 0x43), 0x10004),
    // sra x8, x6, x7
    (0x40735433, (8, 0xffff_ffc3), 0x10004),
    // or x8, x6, x7
    (0x00736433, (8, 0xffff_fff9), 0x10004),
    // and x8, x6, x7
    (0x00737433, (8, 0x8765_4321), 0x10004),
    // fence rw, w
    (0x0310000f, (0, 0), 0x10004),
    // ecall
    (0x00000073, (10, 0xffff_ffda), 0x10004),
];

/// Loads, and x8 after them.
const LOADS: [(u32, u32); 9] = [
    // lb x8, 2(x5)
    (0x00228403, 0xffff_ffff),
    // lh x8, 2(x5)
    (0x00229403, 0xffff_80ff),
    // lw x8, 0(x5)
    (0x0002a403, 0x80ff_7f01),
    // lbu x8, 3(x5)
    (0x0032c403, 0x80),
    // lhu x8, 2(x5)
    (0x0022d403, 0x80ff),
    // lb x8, 1(x5)
    (0x00128403, 0x7f),
    // lh x8, 0(x5)
    (0x00029403, 0x7f01),
    // lbu x8, 0(x5)
    (0x0002c403, 1),
    // lr.w.aq x8, (x5)
    (0x1402a42f, 0x80ff_7f01),
];

/// Stores and atomic operations, x8 after them, and the word at the address in x5.
const WRITES: [(u32, u32, u32); 13] = [
    // sb x6, 1(x5)
    (0x006280a3, 0, 0x80ff_2101),
    // sh x6, 2(x5)
    (0x00629123, 0, 0x4321_7f01),
    // sw x6, 0(x5)
    (0x0062a023, 0, 0x8765_4321),
    // sc.w.rl x8, x6, (x5)
    (0x1a62a42f, 0, 0x8765_4321),
    // amoswap.w x8, x6, (x5)
    (0x0862a42f, 0x80ff_7f01, 0x8765_4321),
    // amoadd.w x8, x6, (x5)
    (0x0062a42f, 0x80ff_7f01, 0x0864_c222),
    // amoxor.w x8, x6, (x5)
    (0x2062a42f, 0x80ff_7f01, 0x079a_3c20),
    // amoand.w x8, x6, (x5)
    (0x6062a42f, 0x80ff_7f01, 0x8065_4301),
    // amoor.w.aqrl x8, x6, (x5)
    (0x4662a42f, 0x80ff_7f01, 0x87ff_7f21),
    // amomin.w x8, x6, (x5)
    (0x8062a42f, 0x80ff_7f01, 0x80ff_7f01),
    // amomax.w x8, x6, (x5)
    (0xa062a42f, 0x80ff_7f01, 0x8765_4321),
    // amominu.w x8, x6, (x5)
    (0xc062a42f, 0x80ff_7f01, 0x80ff_7f01),
    // amomaxu.w x8, x6, (x5)
    (0xe062a42f, 0x80ff_7f01, 0x8765_4321),
];

/// Runs an instruction under each pair of permissions: it leaves `left` and `memory` behind where its
/// need is met, and else the hart and the page are as before.
fn try_permissions(rt: &impl Abort, word: u32, need: Option<Need>, left: &HartView, memory: u32) {
    for (reads, writes) in [(false, false), (false, true), (true, false), (true, true)] {
        let mut page = page_with(MEMORY, reads, writes);
        let mut view = hart(rt);
        let ended = run(rt, &mut page, &mut view, Some(word));
        let permitted = match need {
            None => true,
            Some(Need::Read) => reads,
            Some(Need::Write) => writes,
        };
        if permitted {
            assert_eq!(rt; ended, Ended::Ran, "{word:#x}");
            assert_eq!(rt; view, *left, "after {word:#x}");
            assert_eq!(rt; page, page_with(memory, reads, writes), "after {word:#x}");
        } else {
            let line = line_of(ADDRESS);
            let need = need.expect(rt, "a need");
            assert_eq!(rt; ended, Ended::Needs { line, need }, "{word:#x}");
            assert_eq!(rt; view, hart(rt), "after {word:#x}");
            assert_eq!(rt; page, page_with(MEMORY, reads, writes), "after {word:#x}");
        }
    }
}

#[test]
fn instructions_that_touch_no_memory_need_nothing(rt: HostRuntime) {
    for (word, (rd, value), pc) in OPERATIONS {
        let mut left = hart(&rt);
        left.regs.set(register(&rt, rd), value);
        left.pc = pc;
        try_permissions(&rt, word, None, &left, MEMORY);
    }
}

#[test]
fn loads_need_their_line_for_reading(rt: HostRuntime) {
    for (word, value) in LOADS {
        let mut left = hart(&rt);
        left.regs.set(register(&rt, 8), value);
        left.pc = PC + 4;
        try_permissions(&rt, word, Some(Need::Read), &left, MEMORY);
    }
}

#[test]
fn what_writes_needs_its_line_for_writing_and_ends_the_reservation(rt: HostRuntime) {
    for (word, value, memory) in WRITES {
        let mut left = hart(&rt);
        left.regs.set(register(&rt, 8), value);
        left.pc = PC + 4;
        left.reserved = None;
        try_permissions(&rt, word, Some(Need::Write), &left, memory);
    }
}
