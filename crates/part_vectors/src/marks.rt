//! Views before and after a checkpoint, worked by hand.

use el_base::line_of;
use reg_mark::*;
use rv_alu::{HartStatus, HartView, Regs};
use std::test::Fail;

fn view(pc: u32, reserved: Option<u32>) -> HartView {
    HartView {
        pc,
        regs: Regs::zero(),
        reserved,
        status: HartStatus::Running,
    }
}

#[test]
fn a_hart_goes_back_to_its_checkpoint_or_keeps_its_view(rt: HostRuntime) {
    let (early, late) = (view(0x10000, None), view(0x10004, Some(0x20000)));
    let mut marked = Marked::new(early);
    assert_eq!(rt; *marked.committed(), early);
    marked.mark();
    *marked.present_mut() = late;
    assert_eq!(rt; *marked.present(), late);
    assert_eq!(rt; *marked.committed(), early);
    let mut kept = marked;
    kept.keep();
    assert_eq!(rt; *kept.present(), late);
    assert_eq!(rt; *kept.committed(), late);
    marked.back();
    assert_eq!(rt; *marked.present(), early);
    assert_eq!(rt; *marked.committed(), early);
}

#[test]
fn the_committed_view_loses_its_reservation(rt: HostRuntime) {
    for (address, left) in [
        (0x20000, None),
        (0x2003f, None),
        (0x20040, Some(0x2003c)),
        (0x1ffff, Some(0x2003c)),
    ] {
        let reserving = view(0x10000, Some(0x2003c));
        let mut marked = Marked::new(reserving);
        marked.unreserve(line_of(address));
        assert_eq!(rt; marked.present().reserved, left, "at {address}");
        let mut marked = Marked::new(reserving);
        marked.mark();
        marked.unreserve(line_of(address));
        assert_eq!(rt; marked.committed().reserved, left, "at {address}");
        assert_eq!(rt; *marked.present(), reserving);
    }
}
