//! Acquires by LR and SC, worked by hand: a hart that arms and completes its acquire, and harts that are let go.

use super::*;

/// A program that acquires the lock by LR and SC and gives it back, or stores to it in a hart of the number in `x9`:
/// `lui x5,0x11`, `addi x6,x0,1`, `addi x9,x0,1`, `lw x7,0(x5)`, `beq x10,x9,24`, `lr.w x7,(x5)`, `bne x7,x0,-4`,
/// `sc.w x8,x6,(x5)`, `bne x8,x0,-12`, `sw x0,0(x5)`, and then `sw x0,0(x5)`.
const ACQUIRES: [u8; 128] = [
    0x7f, 0x45, 0x4c, 0x46, 0x01, 0x01, 0x01, 0x00, 0x00, 0x00, 0x00, 0x00, 0x00, 0x00, 0x00, 0x00,
    0x02, 0x00, 0xf3, 0x00, 0x01, 0x00, 0x00, 0x00, 0x54, 0x00, 0x01, 0x00, 0x34, 0x00, 0x00, 0x00,
    0x00, 0x00, 0x00, 0x00, 0x00, 0x00, 0x00, 0x00, 0x34, 0x00, 0x20, 0x00, 0x01, 0x00, 0x00, 0x00,
    0x00, 0x00, 0x00, 0x00, 0x01, 0x00, 0x00, 0x00, 0x00, 0x00, 0x00, 0x00, 0x00, 0x00, 0x01, 0x00,
    0x00, 0x00, 0x01, 0x00, 0x80, 0x00, 0x00, 0x00, 0x80, 0x00, 0x00, 0x00, 0x05, 0x00, 0x00, 0x00,
    0x00, 0x10, 0x00, 0x00, 0xb7, 0x12, 0x01, 0x00, 0x13, 0x03, 0x10, 0x00, 0x93, 0x04, 0x10, 0x00,
    0x83, 0xa3, 0x02, 0x00, 0x63, 0x0c, 0x95, 0x00, 0xaf, 0xa3, 0x02, 0x10, 0xe3, 0x9e, 0x03, 0xfe,
    0x2f, 0xa4, 0x62, 0x18, 0xe3, 0x1a, 0x04, 0xfe, 0x23, 0xa0, 0x02, 0x00, 0x23, 0xa0, 0x02, 0x00,
];

/// A program by which hart 0 reads the lock behind its LR, and hart 1 acquires it by a swap: `lui x5,0x11`,
/// `addi x6,x0,1`, `lw x7,0(x5)`, `bne x10,x0,16`, `lr.w x7,(x5)`, `lw x8,0(x5)`, `sc.w x9,x6,(x5)`, and then
/// `amoswap.w x7,x6,(x5)`, `sw x0,0(x5)`.
const READS: [u8; 120] = [
    0x7f, 0x45, 0x4c, 0x46, 0x01, 0x01, 0x01, 0x00, 0x00, 0x00, 0x00, 0x00, 0x00, 0x00, 0x00, 0x00,
    0x02, 0x00, 0xf3, 0x00, 0x01, 0x00, 0x00, 0x00, 0x54, 0x00, 0x01, 0x00, 0x34, 0x00, 0x00, 0x00,
    0x00, 0x00, 0x00, 0x00, 0x00, 0x00, 0x00, 0x00, 0x34, 0x00, 0x20, 0x00, 0x01, 0x00, 0x00, 0x00,
    0x00, 0x00, 0x00, 0x00, 0x01, 0x00, 0x00, 0x00, 0x00, 0x00, 0x00, 0x00, 0x00, 0x00, 0x01, 0x00,
    0x00, 0x00, 0x01, 0x00, 0x78, 0x00, 0x00, 0x00, 0x78, 0x00, 0x00, 0x00, 0x05, 0x00, 0x00, 0x00,
    0x00, 0x10, 0x00, 0x00, 0xb7, 0x12, 0x01, 0x00, 0x13, 0x03, 0x10, 0x00, 0x83, 0xa3, 0x02, 0x00,
    0x63, 0x18, 0x05, 0x00, 0xaf, 0xa3, 0x02, 0x10, 0x03, 0xa4, 0x02, 0x00, 0xaf, 0xa4, 0x62, 0x18,
    0xaf, 0xa3, 0x62, 0x08, 0x23, 0xa0, 0x02, 0x00,
];

/// The program that acquires, where the harts below this number do, and the one of this number stores.
fn acquiring(writer: u8) -> [u8; 128] {
    let mut file = ACQUIRES;
    file[0x5e] = (writer % 8) * 16;
    file
}

fn config(harts: u8, mode: Mode) -> Config {
    Config {
        mode,
        ..plain(harts, 60)
    }
}

/// What Order says of a request that lets these harts go.
fn freeing(freed: Freed) -> Outcome {
    Outcome::Ordered {
        losers: Losers::none(),
        freed,
    }
}

/// An LR arms, its SC begins the live section that the instructions since the LR belong to, and the release commits
/// all five.
#[test]
fn an_acquire_by_lr_and_sc_is_elided(rt: HostRuntime) -> Result<(), Fail> {
    let live = Live {
        count: 3,
        word: LOCK,
        old: 0,
        new: 1,
    };
    let script = [
        Act::LoadLock(0, 3),
        Act::Make(Kind::Step, 0, 1, Outcome::Ran),
        Act::Make(Kind::Step, 0, 1, Outcome::Armed),
        Act::Make(Kind::Step, 0, 1, Outcome::Buffered),
        Act::ExpectHart(0, HartFact::Armed(Some(2))),
        Act::ExpectHart(0, HartFact::Section(None)),
        Act::Make(Kind::Step, 0, 1, Outcome::Began),
        Act::ExpectHart(0, HartFact::Section(Some(live))),
        Act::ExpectHart(0, HartFact::Armed(None)),
        Act::Make(Kind::Step, 0, 1, Outcome::Buffered),
        Act::Make(Kind::Step, 0, 1, Outcome::Committed { count: 5 }),
        Act::ExpectHart(0, HartFact::Register(8, 0)),
        Act::Expect(MachineFact::Byte(LOCK, 0)),
    ];
    for mode in [Mode::Sle, Mode::Tlr] {
        play(&rt, rt.alloc(), &ACQUIRES, config(1, mode), &script, b"")?;
    }
    Ok(())
}

/// A load behind the LR lets the section go, and is not run in that event. The SC fails, since another hart's section
/// has written the lock in between.
#[test]
fn a_load_lets_an_armed_section_go(rt: HostRuntime) -> Result<(), Fail> {
    let script = [
        Act::LoadLock(0, 2),
        Act::LoadLock(1, 2),
        Act::Make(Kind::Step, 0, 1, Outcome::Ran),
        Act::Make(Kind::Step, 1, 1, Outcome::Ran),
        Act::Make(Kind::Step, 0, 1, Outcome::Armed),
        Act::Make(Kind::Step, 0, 1, Outcome::LetGo { count: 1 }),
        Act::Make(Kind::Step, 0, 1, Outcome::Ran),
        Act::Make(Kind::Step, 1, 1, Outcome::Began),
        Act::Make(Kind::Step, 1, 1, Outcome::Committed { count: 2 }),
        Act::Make(Kind::Step, 0, 1, Outcome::Ran),
        Act::ExpectHart(0, HartFact::Register(9, 1)),
    ];
    play(&rt, rt.alloc(), &READS, config(2, Mode::Tlr), &script, b"")
}

/// A request to write the lock lets an armed hart go as it is ordered, so that it is served at once, and the SC fails.
#[test]
fn a_write_lets_an_armed_hart_go(rt: HostRuntime) -> Result<(), Fail> {
    let freed = Freed::none().with(hart(0)?, 2);
    let script = [
        Act::LoadLock(1, 3),
        Act::LoadLock(0, 3),
        Act::Make(Kind::Step, 1, 1, Outcome::Ran),
        Act::Make(Kind::Step, 0, 1, Outcome::Ran),
        Act::Make(Kind::Step, 0, 1, Outcome::Armed),
        Act::Make(Kind::Step, 0, 1, Outcome::Buffered),
        Act::Make(Kind::Step, 1, 1, wants(LOCK, Need::Write)),
        Act::Make(Kind::Order, 1, 1, freeing(freed)),
        Act::ExpectHart(0, HartFact::Armed(None)),
        Act::Make(Kind::Serve, 1, 1, served()),
        Act::Make(Kind::Step, 1, 1, Outcome::Ran),
        Act::Make(Kind::Step, 0, 1, Outcome::Ran),
        Act::ExpectHart(0, HartFact::Register(8, 1)),
    ];
    play(
        &rt,
        rt.alloc(),
        &ACQUIRES,
        config(2, Mode::Tlr),
        &script,
        b"",
    )
}

/// Two harts are let go by one request, in ascending order, each with its own number of instructions.
#[test]
fn a_write_lets_two_harts_go(rt: HostRuntime) -> Result<(), Fail> {
    let freed = Freed::none().with(hart(0)?, 2).with(hart(1)?, 1);
    let script = [
        Act::LoadLock(0, 3),
        Act::LoadLock(1, 3),
        Act::LoadLock(2, 3),
        Act::Make(Kind::Step, 0, 1, Outcome::Ran),
        Act::Make(Kind::Step, 1, 1, Outcome::Ran),
        Act::Make(Kind::Step, 2, 1, Outcome::Ran),
        Act::Make(Kind::Step, 0, 1, Outcome::Armed),
        Act::Make(Kind::Step, 1, 1, Outcome::Armed),
        Act::Make(Kind::Step, 0, 1, Outcome::Buffered),
        Act::Make(Kind::Step, 2, 1, wants(LOCK, Need::Write)),
        Act::Make(Kind::Order, 2, 1, freeing(freed)),
        Act::ExpectHart(0, HartFact::Armed(None)),
        Act::ExpectHart(1, HartFact::Armed(None)),
    ];
    play(
        &rt,
        rt.alloc(),
        &acquiring(2),
        config(3, Mode::Tlr),
        &script,
        b"",
    )
}

/// A section of at most two instructions has no room for one between the LR and the SC.
#[test]
fn a_short_limit_lets_an_armed_section_go(rt: HostRuntime) -> Result<(), Fail> {
    let short = Config {
        long: 2,
        ..config(1, Mode::Sle)
    };
    let script = [
        Act::LoadLock(0, 3),
        Act::Make(Kind::Step, 0, 1, Outcome::Ran),
        Act::Make(Kind::Step, 0, 1, Outcome::Armed),
        Act::Make(Kind::Step, 0, 1, Outcome::LetGo { count: 1 }),
    ];
    play(&rt, rt.alloc(), &ACQUIRES, short, &script, b"")
}
