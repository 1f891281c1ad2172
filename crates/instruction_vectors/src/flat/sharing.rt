use super::*;
use crate::asserts::{same, same_at};

/// Both harts take the last line of memory as x5. Hart 0 reserves its first word, stores 2 to it on
/// condition with the answer in x7, and loads it to x8. Hart 1 jumps over this.
///
/// `slli x5,x10,16; add x5,x5,x2; addi x5,x5,-64; bne x10,x0,.+16; lr.w x6,(x5); sc.w x7,x11,(x5);
/// lw x8,0(x5)`
const RESERVING: [u32; 7] = [
    0x01051293, 0x002282b3, 0xfc028293, 0x00051863, 0x1002a32f, 0x18b2a3af, 0x0002a403,
];

/// What hart 1, whose x10 is 1, runs after hart 0 has reserved its word; x7 and x8 of hart 0 in the
/// end, and the reservation of hart 1.
const OTHERS: &[(&[u32], u32, u32, Option<u32>)] = &[
    // sw x10,0(x5)
    (&[0x00a2a023], 1, 1, None),
    // sw x10,4(x5)
    (&[0x00a2a223], 1, 0, None),
    // sb x10,63(x5)
    (&[0x02a28fa3], 1, 0, None),
    // sw x10,-4(x5)
    (&[0xfea2ae23], 0, 2, None),
    // amoor.w x6,x0,(x5)
    (&[0x4002a32f], 1, 0, None),
    // lr.w x6,(x5); sc.w x7,x10,(x5)
    (&[0x1002a32f, 0x18a2a3af], 1, 1, None),
    // sc.w x7,x10,(x5)
    (&[0x18a2a3af], 0, 2, None),
    // lr.w x6,(x5); lw x6,0(x5)
    (&[0x1002a32f, 0x0002a303], 0, 2, None),
    // addi x5,x5,-64; lr.w x6,(x5)
    (&[0xfc028293, 0x1002a32f], 0, 2, Some(0x30000)),
    // sw x10,4(x5); lr.w x6,(x5)
    (&[0x00a2a223, 0x1002a32f], 1, 0, Some(0x30040)),
    // sw x10,1(x5)
    (&[0x00a2a0a3], 0, 2, None),
];

#[test]
fn a_write_to_the_line_takes_the_reservation(rt: HostRuntime) -> Result<(), Fail> {
    for &(others, failed, word, reserved) in OTHERS {
        let mut code = RESERVING.to_vec(rt.alloc())?;
        code.extend_from_slice(others)?;
        let mut flat = flat_of(&rt, rt.alloc(), &code, 2)?;
        go(&rt, &mut flat, 0, 5);
        same(&rt, seen(&rt, &flat, 0).reserved, Some(0x30040));
        go(&rt, &mut flat, 1, 4);
        go(&rt, &mut flat, 1, others.len());
        go(&rt, &mut flat, 0, 2);
        let view = seen(&rt, &flat, 0);
        same_at(&rt, others, word_in(&rt, &view, 7), failed);
        same_at(&rt, others, word_in(&rt, &view, 8), word);
        same_at(&rt, others, seen(&rt, &flat, 1).reserved, reserved);
    }
    Ok(())
}
