use super::*;
use crate::asserts::{same, same_at};

/// The end of memory with one hart.
const END: u32 = 0x20080;

/// Instructions, registers that they leave behind, and the pc after them.
const JUMPS_AND_OPERATIONS: &[(&[u32], &[(u8, u32)], u32)] = &[
    // auipc x5,0; jalr x5,12(x5)
    (&[0x00000297, 0x00c282e7], &[(5, 0x1005c)], 0x10060),
    // auipc x5,0; jalr x1,13(x5)
    (
        &[0x00000297, 0x00d280e7],
        &[(1, 0x1005c), (5, 0x10054)],
        0x10060,
    ),
    // auipc x5,0; jalr x0,-4(x5)
    (&[0x00000297, 0xffc28067], &[(5, 0x10054)], 0x10050),
    // addi x6,x0,1; jal x6,.+12
    (&[0x00100313, 0x00c0036f], &[(6, 0x1005c)], 0x10064),
    // jal x0,.-4
    (&[0xffdff06f], &[], 0x10050),
    // addi x6,x0,-1; bltu x0,x6,.-8
    (&[0xfff00313, 0xfe606ce3], &[(6, 0xffff_ffff)], 0x10050),
    // addi x6,x0,-1; blt x0,x6,.+6
    (&[0xfff00313, 0x00604363], &[(6, 0xffff_ffff)], 0x1005c),
    // addi x6,x0,1; add x6,x6,x6; sub x6,x0,x6
    (
        &[0x00100313, 0x00630333, 0x40600333],
        &[(6, 0xffff_fffe)],
        0x10060,
    ),
    // addi x0,x0,1; lui x0,1; jal x0,.+4
    (&[0x00100013, 0x00001037, 0x0040006f], &[(0, 0)], 0x10060),
    // lui x6,0x87654; addi x6,x6,0x321; auipc x7,0xfffff
    (
        &[0x87654337, 0x32130313, 0xfffff397],
        &[(6, 0x8765_4321), (7, 0xf05c)],
        0x10060,
    ),
    // addi x6,x0,-2048; slti x7,x6,-2047; sltiu x8,x6,-2047; sltiu x9,x6,-2048; srai x12,x6,31;
    // srli x13,x6,31; slli x14,x6,20; xori x15,x6,-1; ori x16,x6,0x7f; andi x18,x6,-1
    (
        &[
            0x80000313, 0x80132393, 0x80133413, 0x80033493, 0x41f35613, 0x01f35693, 0x01431713,
            0xfff34793, 0x07f36813, 0xfff37913,
        ],
        &[
            (6, 0xffff_f800),
            (7, 1),
            (8, 1),
            (9, 0),
            (12, 0xffff_ffff),
            (13, 1),
            (14, 0x8000_0000),
            (15, 0x7ff),
            (16, 0xffff_f87f),
            (18, 0xffff_f800),
        ],
        0x1007c,
    ),
    // fence; fence rw,w; fence.tso
    (&[0x0ff0000f, 0x0310000f, 0x8330000f], &[], 0x10060),
];

/// Instructions, and registers that they leave behind.
const LOADS_AND_STORES: &[(&[u32], &[(u8, u32)])] = &[
    // auipc x5,0; lw x5,4(x5)
    (&[0x00000297, 0x0042a283], &[(5, 0x0042_a283)]),
    // lui x6,0x87654; addi x6,x6,0x321; sw x6,-64(x2); lb x7,-61(x2); lbu x8,-61(x2);
    // lh x9,-62(x2); lhu x12,-62(x2); lb x13,-64(x2); lw x14,-64(x2)
    (
        &[
            0x87654337, 0x32130313, 0xfc612023, 0xfc310383, 0xfc314403, 0xfc211483, 0xfc215603,
            0xfc010683, 0xfc012703,
        ],
        &[
            (7, 0xffff_ff87),
            (8, 0x87),
            (9, 0xffff_8765),
            (12, 0x8765),
            (13, 0x21),
            (14, 0x8765_4321),
        ],
    ),
    // addi x6,x0,-1; sb x6,-63(x2); lw x7,-64(x2); sh x6,-62(x2); lw x8,-64(x2); sb x0,-62(x2);
    // lw x9,-64(x2); lw x12,-60(x2)
    (
        &[
            0xfff00313, 0xfc6100a3, 0xfc012383, 0xfc611123, 0xfc012403, 0xfc010123, 0xfc012483,
            0xfc412603,
        ],
        &[(7, 0xff00), (8, 0xffff_ff00), (9, 0xff00_ff00), (12, 0)],
    ),
    // addi x5,x2,-64; addi x6,x0,5; sw x6,0(x5); addi x6,x0,7; amoadd.w x6,x6,(x5); lw x7,0(x5)
    (
        &[
            0xfc010293, 0x00500313, 0x0062a023, 0x00700313, 0x0062a32f, 0x0002a383,
        ],
        &[(6, 5), (7, 12)],
    ),
    // addi x5,x2,-64; addi x6,x0,5; sw x6,0(x5); amoswap.w.aqrl x5,x2,(x5); lw x7,-64(x2)
    (
        &[0xfc010293, 0x00500313, 0x0062a023, 0x0e22a2af, 0xfc012383],
        &[(5, 5), (7, END)],
    ),
    // addi x5,x2,-64; addi x6,x0,-5; sw x6,0(x5); amomax.w x7,x2,(x5); amominu.w x8,x6,(x5);
    // lw x9,0(x5)
    (
        &[
            0xfc010293, 0xffb00313, 0x0062a023, 0xa022a3af, 0xc062a42f, 0x0002a483,
        ],
        &[(7, 0xffff_fffb), (8, END), (9, END)],
    ),
    // addi x5,x2,-64; addi x6,x0,5; amoxor.w x0,x6,(x5); lw x0,0(x5); lw x7,0(x5)
    (
        &[0xfc010293, 0x00500313, 0x2062a02f, 0x0002a003, 0x0002a383],
        &[(0, 0), (7, 5)],
    ),
    // auipc x5,0; sw x0,12(x5); lw x6,12(x5); addi x7,x0,9
    (
        &[0x00000297, 0x0002a623, 0x00c2a303, 0x00900393],
        &[(6, 0), (7, 9)],
    ),
    // auipc x5,0; lbu x6,12(x5); sb x5,12(x5); addi x7,x0,9; lbu x8,12(x5)
    (
        &[0x00000297, 0x00c2c303, 0x00528623, 0x00900393, 0x00c2c403],
        &[(6, 0x93), (7, 9), (8, 0x54)],
    ),
];

/// Takes two words of the last line of memory as x5 and x6, and 7 as x8.
///
/// `addi x5,x2,-64; addi x6,x5,4; addi x8,x0,7`
const PROLOGUE: [u32; 3] = [0xfc010293, 0x00428313, 0x00700413];

/// Instructions behind the prologue, and registers that they leave behind.
const RESERVATIONS: &[(&[u32], &[(u8, u32)])] = &[
    // lr.w x7,(x5); sc.w x9,x8,(x5); lw x12,0(x5)
    (
        &[0x1002a3af, 0x1882a4af, 0x0002a603],
        &[(7, 0), (9, 0), (12, 7)],
    ),
    // lr.w.aq x7,(x5); sc.w.rl x9,x8,(x6); lw x12,0(x6)
    (&[0x1402a3af, 0x1a8324af, 0x00032603], &[(9, 1), (12, 0)]),
    // lr.w x7,(x5); sc.w x9,x8,(x5); sc.w x12,x0,(x5); lw x13,0(x5)
    (
        &[0x1002a3af, 0x1882a4af, 0x1802a62f, 0x0002a683],
        &[(9, 0), (12, 1), (13, 7)],
    ),
    // sc.w x9,x8,(x5); lw x12,0(x5)
    (&[0x1882a4af, 0x0002a603], &[(9, 1), (12, 0)]),
    // lr.w x7,(x5); sc.w x9,x8,(x6); sc.w x12,x8,(x5)
    (&[0x1002a3af, 0x188324af, 0x1882a62f], &[(9, 1), (12, 1)]),
    // lr.w x7,(x5); lr.w x7,(x6); sc.w x9,x8,(x5)
    (&[0x1002a3af, 0x100323af, 0x1882a4af], &[(9, 1)]),
    // lr.w x7,(x5); lr.w x7,(x6); sc.w x9,x8,(x6)
    (&[0x1002a3af, 0x100323af, 0x188324af], &[(9, 0)]),
    // lr.w x7,(x5); sw x8,4(x5); sc.w x9,x8,(x5)
    (&[0x1002a3af, 0x0082a223, 0x1882a4af], &[(9, 1)]),
    // lr.w x7,(x5); sw x8,-64(x5); sc.w x9,x8,(x5)
    (&[0x1002a3af, 0xfc82a023, 0x1882a4af], &[(9, 1)]),
    // lr.w x7,(x5); amoor.w x7,x0,(x6); sc.w x9,x8,(x5)
    (&[0x1002a3af, 0x400323af, 0x1882a4af], &[(9, 1)]),
    // lr.w x7,(x5); lw x7,0(x5); fence; ecall; sc.w x9,x8,(x5)
    (
        &[0x1002a3af, 0x0002a383, 0x0ff0000f, 0x00000073, 0x1882a4af],
        &[(9, 0), (10, 0xffff_ffda)],
    ),
    // lr.w x5,(x5); sc.w x9,x8,(x6)
    (&[0x1002a2af, 0x188324af], &[(5, 0), (9, 1)]),
    // lr.w x7,(x5); sc.w x5,x5,(x5); lw x12,-64(x2)
    (
        &[0x1002a3af, 0x1852a2af, 0xfc012603],
        &[(5, 0), (12, END - 64)],
    ),
    // lr.w x7,(x5); sc.w x8,x8,(x5); lw x12,0(x5)
    (&[0x1002a3af, 0x1882a42f, 0x0002a603], &[(8, 0), (12, 7)]),
    // lr.w x7,(x5); sc.w x0,x8,(x5); lw x12,0(x5)
    (&[0x1002a3af, 0x1882a02f, 0x0002a603], &[(0, 0), (12, 7)]),
];

/// The only hart, after all of these instructions.
fn after(rt: &impl Abort, alloc: Global, code: &[u32]) -> Result<HartView, Fail> {
    let mut flat = flat_of(rt, alloc, code, 1)?;
    go(rt, &mut flat, 0, code.len());
    Ok(seen(rt, &flat, 0))
}

#[test]
fn jumps_and_operations_leave_registers_and_pc(rt: HostRuntime) -> Result<(), Fail> {
    for &(code, registers, pc) in JUMPS_AND_OPERATIONS {
        let view = after(&rt, rt.alloc(), code)?;
        same_at(&rt, code, view.pc, pc);
        same(&rt, view.status, HartStatus::Running);
        for (number, word) in registers {
            same_at(&rt, (number, code), word_in(&rt, &view, *number), *word);
        }
    }
    Ok(())
}

#[test]
fn loads_and_stores_see_memory(rt: HostRuntime) -> Result<(), Fail> {
    for &(code, registers) in LOADS_AND_STORES {
        let view = after(&rt, rt.alloc(), code)?;
        same(&rt, view.status, HartStatus::Running);
        for (number, word) in registers {
            same_at(&rt, (number, code), word_in(&rt, &view, *number), *word);
        }
    }
    Ok(())
}

#[test]
fn a_store_conditional_succeeds_at_its_reserved_word(rt: HostRuntime) -> Result<(), Fail> {
    for &(words, registers) in RESERVATIONS {
        let mut code = PROLOGUE.to_vec(rt.alloc())?;
        code.extend_from_slice(words)?;
        let view = after(&rt, rt.alloc(), &code)?;
        same(&rt, view.status, HartStatus::Running);
        same(&rt, view.reserved, None);
        for (number, word) in registers {
            same_at(&rt, (number, words), word_in(&rt, &view, *number), *word);
        }
    }
    Ok(())
}
