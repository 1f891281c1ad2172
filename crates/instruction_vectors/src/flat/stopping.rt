use super::*;
use crate::asserts::{same, same_at};

/// Instructions, the last of which traps, and the cause.
const TRAPS: &[(&[u32], u8)] = &[
    // .word 0
    (&[0x00000000], 2),
    // .word 0xffffffff
    (&[0xffffffff], 2),
    // fence.i
    (&[0x0000100f], 2),
    // csrrs x5,cycle,x0
    (&[0xc00022f3], 2),
    // .word 0x045282b3
    (&[0x045282b3], 2),
    // ebreak
    (&[0x00100073], 3),
    // jal x1,.+2
    (&[0x002000ef], 0),
    // jalr x1,1(x11)
    (&[0x001580e7], 0),
    // jalr x1,2(x0)
    (&[0x002000e7], 0),
    // beq x0,x0,.+6
    (&[0x00000363], 0),
    // lw x5,1(x0)
    (&[0x00102283], 4),
    // lw x5,0(x0)
    (&[0x00002283], 5),
    // lw x5,-1(x0)
    (&[0xfff02283], 4),
    // lw x5,-4(x0)
    (&[0xffc02283], 5),
    // lw x5,-2(x2)
    (&[0xffe12283], 4),
    // lw x5,0(x2)
    (&[0x00012283], 5),
    // lh x5,1(x0)
    (&[0x00101283], 4),
    // lhu x5,-1(x2)
    (&[0xfff15283], 4),
    // lhu x5,0(x2)
    (&[0x00015283], 5),
    // lb x5,0(x0)
    (&[0x00000283], 5),
    // lbu x5,0(x2)
    (&[0x00014283], 5),
    // auipc x5,0; lb x5,-85(x5)
    (&[0x00000297, 0xfab28283], 5),
    // sw x5,1(x0)
    (&[0x005020a3], 6),
    // sw x5,0(x0)
    (&[0x00502023], 7),
    // sw x5,-2(x2)
    (&[0xfe512f23], 6),
    // sw x5,0(x2)
    (&[0x00512023], 7),
    // sh x5,-1(x2)
    (&[0xfe511fa3], 6),
    // sh x5,-2(x0)
    (&[0xfe501f23], 7),
    // sb x5,0(x2)
    (&[0x00510023], 7),
    // lr.w x5,(x11)
    (&[0x1005a2af], 4),
    // lr.w x5,(x0)
    (&[0x100022af], 5),
    // sc.w x5,x6,(x11)
    (&[0x1865a2af], 6),
    // sc.w x5,x6,(x0)
    (&[0x186022af], 7),
    // amoadd.w x5,x6,(x11)
    (&[0x0065a2af], 6),
    // amoadd.w x5,x6,(x0)
    (&[0x006022af], 7),
    // addi x5,x2,-4; lr.w x6,(x5); sc.w x6,x6,(x11)
    (&[0xffc10293, 0x1002a32f, 0x1865a32f], 6),
    // addi x5,x2,-4; lr.w x6,(x5); sw x6,0(x2)
    (&[0xffc10293, 0x1002a32f, 0x00612023], 7),
];

#[test]
fn a_trap_leaves_the_hart_at_its_instruction(rt: HostRuntime) -> Result<(), Fail> {
    for &(code, cause) in TRAPS {
        let mut flat = flat_of(&rt, rt.alloc(), code, 1)?;
        go(&rt, &mut flat, 0, code.len().saturating_sub(1));
        let before = seen(&rt, &flat, 0);
        same_at(&rt, code, before.status, HartStatus::Running);
        let status = HartStatus::Trapped {
            cause,
            pc: before.pc,
        };
        go(&rt, &mut flat, 0, 2);
        same_at(
            &rt,
            code,
            seen(&rt, &flat, 0),
            HartView { status, ..before },
        );
    }
    Ok(())
}

#[test]
fn a_pc_outside_the_code_traps(rt: HostRuntime) -> Result<(), Fail> {
    let programs: [(&[u32], u32); 3] = [
        // addi x0,x0,0, and no more code
        (&[0x00000013], 0x10058),
        // jalr x0,0(x0)
        (&[0x00000067], 0),
        // jalr x0,-64(x2), into the stack
        (&[0xfc010067], 0x20040),
    ];
    for (code, pc) in programs {
        let mut flat = flat_of(&rt, rt.alloc(), code, 1)?;
        go(&rt, &mut flat, 0, 2);
        let view = seen(&rt, &flat, 0);
        same(&rt, view.pc, pc);
        same(&rt, view.status, HartStatus::Trapped { cause: 1, pc });
    }
    Ok(())
}

#[test]
fn an_exit_leaves_the_hart_at_its_call(rt: HostRuntime) -> Result<(), Fail> {
    // addi x10,x0,-3; addi x17,x0,93; ecall
    let code = [0xffd00513, 0x05d00893, 0x00000073];
    let mut flat = flat_of(&rt, rt.alloc(), &code, 1)?;
    go(&rt, &mut flat, 0, 2);
    let before = seen(&rt, &flat, 0);
    go(&rt, &mut flat, 0, 2);
    let status = HartStatus::Exited { code: 0xffff_fffd };
    same(&rt, seen(&rt, &flat, 0), HartView { status, ..before });
    same(&rt, before.pc, 0x1005c);
    Ok(())
}
