ghost use Rattle.std.specs.Prelude.{◌<◌, length};

use super::*;
use crate::asserts::{same, same_at};
use std::mem::size_of;

/// The end of memory with one hart.
const END: u32 = 0x20080;

/// Instructions; the register that the last of them writes, with its word before; where it stores, how
/// many bytes and the bytes before; and how many bytes the output had.
const CHANGES: &[(&[u32], (u8, u32), (u32, u8, [u8; 4]), u32)] = &[
    // addi x6,x0,1; add x6,x6,x6
    (&[0x00100313, 0x00630333], (6, 1), (0, 0, [0; 4]), 0),
    // addi x6,x0,1; jal x6,.+12
    (&[0x00100313, 0x00c0036f], (6, 1), (0, 0, [0; 4]), 0),
    // jal x0,.-4
    (&[0xffdff06f], (0, 0), (0, 0, [0; 4]), 0),
    // addi x6,x0,-1; bltu x0,x6,.-8
    (&[0xfff00313, 0xfe606ce3], (0, 0), (0, 0, [0; 4]), 0),
    // auipc x5,0; lw x5,4(x5)
    (&[0x00000297, 0x0042a283], (5, 0x10054), (0, 0, [0; 4]), 0),
    // addi x6,x0,-1; sb x6,-63(x2)
    (&[0xfff00313, 0xfc6100a3], (0, 0), (END - 63, 1, [0; 4]), 0),
    // addi x6,x0,-1; sw x6,-64(x2); sb x0,-62(x2); sh x6,-62(x2)
    (
        &[0xfff00313, 0xfc612023, 0xfc010123, 0xfc611123],
        (0, 0),
        (END - 62, 2, [0, 0xff, 0, 0]),
        0,
    ),
    // addi x6,x0,-1; sb x6,-63(x2); sw x6,-64(x2)
    (
        &[0xfff00313, 0xfc6100a3, 0xfc612023],
        (0, 0),
        (END - 64, 4, [0, 0xff, 0, 0]),
        0,
    ),
    // addi x5,x2,-64; addi x6,x0,5; sw x6,0(x5); addi x6,x0,7; amoadd.w x6,x6,(x5)
    (
        &[0xfc010293, 0x00500313, 0x0062a023, 0x00700313, 0x0062a32f],
        (6, 7),
        (END - 64, 4, [5, 0, 0, 0]),
        0,
    ),
    // addi x5,x2,-64; sc.w x9,x8,(x5)
    (&[0xfc010293, 0x1882a4af], (9, 0), (0, 0, [0; 4]), 0),
    // addi x5,x2,-64; lr.w x7,(x5); sc.w x9,x8,(x5)
    (
        &[0xfc010293, 0x1002a3af, 0x1882a4af],
        (9, 0),
        (END - 64, 4, [0; 4]),
        0,
    ),
    // lui x11,0x10; addi x12,x0,3; addi x10,x0,1; addi x17,x0,64; ecall; addi x10,x0,2; ecall
    (
        &[
            0x000105b7, 0x00300613, 0x00100513, 0x04000893, 0x00000073, 0x00200513, 0x00000073,
        ],
        (10, 2),
        (0, 0, [0; 4]),
        3,
    ),
    // addi x17,x0,93; ecall
    (&[0x05d00893, 0x00000073], (0, 0), (0, 0, [0; 4]), 0),
    // .word 0
    (&[0x00000000], (0, 0), (0, 0, [0; 4]), 0),
];

#[test]
fn a_change_takes_at_most_80_bytes(rt: HostRuntime) {
    assert!(rt; size_of::<Change>() <= 80);
}

#[test]
fn a_step_notes_what_it_overwrites(rt: HostRuntime) -> Result<(), Fail> {
    for &(code, register, place, output) in CHANGES {
        let mut flat = flat_of(&rt, rt.alloc(), code, 1)?;
        go(&rt, &mut flat, 0, code.len().saturating_sub(1));
        let change = noted(&rt, &mut flat, 0);
        let bytes = change.bytes;
        same_at(
            &rt,
            code,
            (
                (change.reg.number, change.value),
                (change.address, change.len, bytes),
                change.output,
            ),
            (register, place, output),
        );
    }
    Ok(())
}

/// What a hart's next step overwrites; the step is made.
fn noted(rt: &impl Abort, flat: &mut Flat, number: u8) -> Change {
    let hart = HartId::new(number).expect(rt, "a hart");
    assert!(rt; usize::from(hart.number) < flat.harts());
    flat.step_noting(hart)
}

/// What a hart's next step overwrites; the step is made and undone.
fn noted_and_undone(rt: &impl Abort, flat: &mut Flat, number: u8) -> Change {
    let hart = HartId::new(number).expect(rt, "a hart");
    assert!(rt; usize::from(hart.number) < flat.harts());
    there_and_back(flat, hart)
}

/// A step of a hart, made and undone.
fn there_and_back(flat: &mut Flat, hart: HartId) -> Change
    requires { hart.number < length flat.old.harts }
{
    let change = flat.step_noting(hart);
    flat.undo(&change);
    change
}

/// Both harts reserve words of the last line of memory, and hart 1 stores to it.
///
/// `slli x5,x10,16; add x5,x5,x2; addi x5,x5,-64; lr.w x6,(x5); sw x11,4(x5)`
const RESERVING: [u32; 5] = [0x01051293, 0x002282b3, 0xfc028293, 0x1002a32f, 0x00b2a223];

#[test]
fn undoing_a_store_gives_both_harts_their_reservations_back(rt: HostRuntime) -> Result<(), Fail> {
    let mut flat = flat_of(&rt, rt.alloc(), &RESERVING, 2)?;
    go(&rt, &mut flat, 0, 4);
    go(&rt, &mut flat, 1, 4);
    let change = noted_and_undone(&rt, &mut flat, 1);
    let (first, second) = (seen(&rt, &flat, 0), seen(&rt, &flat, 1));
    same(&rt, change.words, [0x30040, 0x30040, 0, 0, 0, 0, 0, 0]);
    same(
        &rt,
        (
            first.reserved,
            second.reserved,
            second.pc,
            flat.byte(0x30044),
        ),
        (Some(0x30040), Some(0x30040), 0x10064, Some(0)),
    );
    Ok(())
}

#[test]
fn undoing_a_write_call_takes_its_output_back(rt: HostRuntime) -> Result<(), Fail> {
    // lui x11,0x10; addi x12,x0,3; addi x10,x0,1; addi x17,x0,64; ecall
    let code = [0x000105b7, 0x00300613, 0x00100513, 0x04000893, 0x00000073];
    let mut flat = flat_of(&rt, rt.alloc(), &code, 1)?;
    go(&rt, &mut flat, 0, 4);
    noted_and_undone(&rt, &mut flat, 0);
    let view = seen(&rt, &flat, 0);
    same(&rt, (flat.output().len(), word_in(&rt, &view, 10)), (0, 1));
    go(&rt, &mut flat, 0, 1);
    same(&rt, flat.output(), b"\x7fEL".as_slice());
    Ok(())
}
