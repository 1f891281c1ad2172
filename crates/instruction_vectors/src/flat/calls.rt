use super::*;
use crate::asserts::{same, same_at};

/// The arguments of a write of 200 bytes that begin 10 bytes before the end of a line.
///
/// `lui x11,0x10; addi x11,x11,0x36; addi x12,x0,200; addi x10,x0,1; addi x17,x0,64`
const PROLOGUE: [u32; 5] = [0x000105b7, 0x03658593, 0x0c800613, 0x00100513, 0x04000893];

/// Instructions behind the prologue, x10 after them, and the output.
const CALLS: &[(&[u32], u32, &[u8])] = &[
    // ecall
    (&[0x00000073], 10, &[0, 0, 0, 0, 0, 0, 0, 0, 1, 0]),
    // addi x10,x0,2; addi x12,x0,3; addi x11,x11,-0x35; ecall
    (&[0x00200513, 0x00300613, 0xfcb58593, 0x00000073], 3, b"ELF"),
    // addi x10,x0,3; ecall
    (&[0x00300513, 0x00000073], 0xffff_fff7, &[]),
    // addi x10,x0,0; ecall
    (&[0x00000513, 0x00000073], 0xffff_fff7, &[]),
    // addi x11,x0,0; ecall
    (&[0x00000593, 0x00000073], 0xffff_fff2, &[]),
    // addi x11,x2,0; ecall
    (&[0x00010593, 0x00000073], 0xffff_fff2, &[]),
    // addi x12,x0,0; ecall
    (&[0x00000613, 0x00000073], 0, &[]),
    // addi x12,x0,0; addi x11,x0,0; ecall
    (&[0x00000613, 0x00000593, 0x00000073], 0, &[]),
    // addi x17,x0,94; ecall
    (&[0x05e00893, 0x00000073], 0xffff_ffda, &[]),
    // addi x17,x0,0; ecall
    (&[0x00000893, 0x00000073], 0xffff_ffda, &[]),
];

#[test]
fn calls_answer_and_write(rt: HostRuntime) -> Result<(), Fail> {
    for &(words, answer, output) in CALLS {
        let mut code = PROLOGUE.to_vec(rt.alloc())?;
        code.extend_from_slice(words)?;
        let mut flat = flat_of(&rt, rt.alloc(), &code, 1)?;
        go(&rt, &mut flat, 0, code.len());
        let view = seen(&rt, &flat, 0);
        same_at(
            &rt,
            words,
            (word_in(&rt, &view, 10), view.status, flat.output()),
            (answer, HartStatus::Running, output),
        );
    }
    Ok(())
}

#[test]
fn the_output_fills_up(rt: HostRuntime) -> Result<(), Fail> {
    // lui x11,0x10; addi x11,x11,0x36; addi x12,x0,64; addi x17,x0,64; addi x10,x0,1; ecall;
    // addi x11,x11,-0x36; addi x10,x0,1; ecall; beq x10,x12,.-8; addi x13,x10,0; addi x10,x0,1; ecall
    let code = [
        0x000105b7, 0x03658593, 0x04000613, 0x04000893, 0x00100513, 0x00000073, 0xfca58593,
        0x00100513, 0x00000073, 0xfec50ce3, 0x00050693, 0x00100513, 0x00000073,
    ];
    let mut flat = flat_of(&rt, rt.alloc(), &code, 1)?;
    // 10 bytes, then 262,143 times a line, then the 54 bytes that are left
    go(&rt, &mut flat, 0, 7 + 3 * 262_144 + 3);
    let view = seen(&rt, &flat, 0);
    same(
        &rt,
        (view.pc, word_in(&rt, &view, 13), word_in(&rt, &view, 10)),
        (0x10088, 54, 0xffff_ffe4),
    );
    same(&rt, flat.output().len(), 16_777_216);
    Ok(())
}
