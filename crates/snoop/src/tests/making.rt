//! A bus before its first event.

use super::*;
use crate::asked::Asked;

/// What a hart has asked, or nothing where it is not there.
fn asked(rig: &Rig, hart: HartId) -> Option<Asked> {
    if usize::from(hart.number) < rig.bus.harts() {
        Some(rig.bus.request(hart))
    } else {
        None
    }
}

#[test]
fn a_first_bus_has_the_image_and_no_request(rt: HostRuntime) -> Result<(), Fail> {
    for harts in [1, 2, 8] {
        let config = Config {
            harts,
            ..Config::usual()
        };
        let rig = first_rig(rt.alloc(), &config)?;
        assert_eq!(rt; rig.bus.harts(), usize::from(harts));
        for number in 0..harts {
            assert_eq!(rt;
                asked(&rig, hart(number)),
                Some(Asked::Nothing),
                "hart {number}"
            );
        }
        for (address, byte) in [
            (0xffff, None),
            (0x10000, Some(0x7f)),
            (0x10001, Some(0x45)),
            (0x10054, Some(0x73)),
            (0x10058, Some(0)),
        ] {
            assert_eq!(rt; rig.bus.byte(&rig.pool, address), byte, "at {address:x}");
        }
    }
    Ok(())
}
