use super::*;
use cache_sets::Letter;
use el_base::{
    Chronicled, Config, ConfigFault, Entry, Event, Freed, HartId, Kind, LineAddr, Losers, Mode,
    Need, Outcome, Why, line_of,
};
use elf_image::{Image, load};
use engine::Live;
use rv_alu::HartStatus;
use rv_word::Reg;
use std::alloc::Global;
use std::process::Abort;
use std::test::Fail;
use worked_files::HELLO;

mod acquires;

/// The lock's word.
const LOCK: u32 = 0x1_1000;

/// A program of ten instructions by which each hart prints the digit of its number, and exits:
/// `auipc x11,0`, `addi x11,x11,40`, `add x11,x11,x10`, `addi x10,x0,1`, `addi x12,x0,1`,
/// `addi x17,x0,64`, `ecall`, `addi x10,x0,0`, `addi x17,x0,93`, `ecall`, and then the digits.
const DIGITS: [u8; 126] = [
    0x7f, 0x45, 0x4c, 0x46, 0x01, 0x01, 0x01, 0x00, 0x00, 0x00, 0x00, 0x00, 0x00, 0x00, 0x00, 0x00,
    0x02, 0x00, 0xf3, 0x00, 0x01, 0x00, 0x00, 0x00, 0x54, 0x00, 0x01, 0x00, 0x34, 0x00, 0x00, 0x00,
    0x00, 0x00, 0x00, 0x00, 0x00, 0x00, 0x00, 0x00, 0x34, 0x00, 0x20, 0x00, 0x01, 0x00, 0x00, 0x00,
    0x00, 0x00, 0x00, 0x00, 0x01, 0x00, 0x00, 0x00, 0x00, 0x00, 0x00, 0x00, 0x00, 0x00, 0x01, 0x00,
    0x00, 0x00, 0x01, 0x00, 0x7e, 0x00, 0x00, 0x00, 0x7e, 0x00, 0x00, 0x00, 0x05, 0x00, 0x00, 0x00,
    0x00, 0x10, 0x00, 0x00, 0x97, 0x05, 0x00, 0x00, 0x93, 0x85, 0x85, 0x02, 0xb3, 0x85, 0xa5, 0x00,
    0x13, 0x05, 0x10, 0x00, 0x13, 0x06, 0x10, 0x00, 0x93, 0x08, 0x00, 0x04, 0x73, 0x00, 0x00, 0x00,
    0x13, 0x05, 0x00, 0x00, 0x93, 0x08, 0xd0, 0x05, 0x73, 0x00, 0x00, 0x00, 0x30, 0x31,
];

/// A program that stores the byte 5 at 0x11000 and loads the word at 0x11040, the next line: `lui x5,0x11`,
/// `addi x6,x0,5`, `sb x6,0(x5)`, `lw x7,64(x5)`.
const STORES: [u8; 100] = [
    0x7f, 0x45, 0x4c, 0x46, 0x01, 0x01, 0x01, 0x00, 0x00, 0x00, 0x00, 0x00, 0x00, 0x00, 0x00, 0x00,
    0x02, 0x00, 0xf3, 0x00, 0x01, 0x00, 0x00, 0x00, 0x54, 0x00, 0x01, 0x00, 0x34, 0x00, 0x00, 0x00,
    0x00, 0x00, 0x00, 0x00, 0x00, 0x00, 0x00, 0x00, 0x34, 0x00, 0x20, 0x00, 0x01, 0x00, 0x00, 0x00,
    0x00, 0x00, 0x00, 0x00, 0x01, 0x00, 0x00, 0x00, 0x00, 0x00, 0x00, 0x00, 0x00, 0x00, 0x01, 0x00,
    0x00, 0x00, 0x01, 0x00, 0x64, 0x00, 0x00, 0x00, 0x64, 0x00, 0x00, 0x00, 0x05, 0x00, 0x00, 0x00,
    0x00, 0x10, 0x00, 0x00, 0xb7, 0x12, 0x01, 0x00, 0x13, 0x03, 0x50, 0x00, 0x23, 0x80, 0x62, 0x00,
    0x83, 0xa3, 0x02, 0x04,
];

/// A program that stores the byte 5 at 0x11040, under the lock at 0x11000: `lui x5,0x11`, `addi x6,x0,5`,
/// `amoswap.w x7,x6,(x5)`, `sb x6,64(x5)`, `sw x0,0(x5)`.
const LOCKS: [u8; 104] = [
    0x7f, 0x45, 0x4c, 0x46, 0x01, 0x01, 0x01, 0x00, 0x00, 0x00, 0x00, 0x00, 0x00, 0x00, 0x00, 0x00,
    0x02, 0x00, 0xf3, 0x00, 0x01, 0x00, 0x00, 0x00, 0x54, 0x00, 0x01, 0x00, 0x34, 0x00, 0x00, 0x00,
    0x00, 0x00, 0x00, 0x00, 0x00, 0x00, 0x00, 0x00, 0x34, 0x00, 0x20, 0x00, 0x01, 0x00, 0x00, 0x00,
    0x00, 0x00, 0x00, 0x00, 0x01, 0x00, 0x00, 0x00, 0x00, 0x00, 0x00, 0x00, 0x00, 0x00, 0x01, 0x00,
    0x00, 0x00, 0x01, 0x00, 0x68, 0x00, 0x00, 0x00, 0x68, 0x00, 0x00, 0x00, 0x05, 0x00, 0x00, 0x00,
    0x00, 0x10, 0x00, 0x00, 0xb7, 0x12, 0x01, 0x00, 0x13, 0x03, 0x50, 0x00, 0xaf, 0xa3, 0x62, 0x08,
    0x23, 0x80, 0x62, 0x04, 0x23, 0xa0, 0x02, 0x00,
];

fn hart(number: u8) -> Result<HartId, Fail> {
    Ok(HartId::new(number).ok_or("no such hart")?)
}

/// A file that is known to be an image, for so many harts.
fn image(rt: &impl Abort, alloc: Global, file: &[u8], harts: u8) -> Result<Image, Fail> {
    assert!(rt; file.len() <= 1_000);
    assert!(rt; (1..=8).contains(&harts));
    Ok(load(alloc, file, harts).map_err(|_| "no image")?)
}

fn plain(harts: u8, steps: u32) -> Config {
    Config {
        harts,
        mode: Mode::Plain,
        steps,
        ..Config::usual()
    }
}

/// A machine of this configuration, or the fault.
fn made(
    rt: &impl Abort,
    alloc: Global,
    file: &[u8],
    config: Config,
) -> Result<Result<Machine, MakeFault>, Fail> {
    let image = image(rt, alloc, file, config.harts)?;
    assert_eq!(rt; image.harts(), config.harts);
    Ok(Machine::make(alloc, image, config))
}

fn machine(rt: &impl Abort, alloc: Global, file: &[u8], config: Config) -> Result<Machine, Fail> {
    Ok(made(rt, alloc, file, config)?.map_err(|_| "no machine")?)
}

/// The line of the two bytes that the program prints, and of the digits.
fn printed() -> LineAddr {
    line_of(0x1_0040)
}

/// What Order and Serve say where no section is lost.
fn ordered() -> Outcome {
    Outcome::Ordered {
        losers: Losers::none(),
        freed: Freed::none(),
    }
}

fn served() -> Outcome {
    Outcome::Served {
        losers: Losers::none(),
        freed: Freed::none(),
    }
}

fn missed() -> Outcome {
    Outcome::Missed {
        line: printed(),
        need: Need::Read,
    }
}

/// An access to the line of an address that finds no copy that permits it.
fn wants(address: u32, need: Need) -> Outcome {
    Outcome::Missed {
        line: line_of(address),
        need,
    }
}

/// A part of a script: what is done to a machine, or seen of it.
#[derive(Clone, Copy)]
enum Act {
    /// So many events of a kind and a hart, each with this outcome.
    Make(Kind, u8, u8, Outcome),
    /// A hart comes to a load of the lock, behind so many instructions, and its cache gets the line.
    LoadLock(u8, u8),
    /// What a hart, its section or its cache shows.
    ExpectHart(u8, HartFact),
    /// What the machine shows as a whole.
    Expect(MachineFact),
}

/// What a hart shows.
#[derive(Clone, Copy)]
enum HartFact {
    Status(HartStatus),
    /// A register, as it is committed.
    Register(u8, u32),
    /// What its cache has of the line of an address.
    Letter(u32, Letter),
    Section(Option<Live>),
    /// How many instructions its armed section has, which is none where it is not armed.
    Armed(Option<u32>),
    /// How many lines its section has stored to.
    Held(usize),
    /// The word that is buffered at the start of the line of an address, the first one that is buffered.
    Buffered(u32, u32),
    /// How many slots of the pool are out for its cache, and for its buffered stores.
    Out(u16, u16),
    /// The byte at an address in main memory.
    MainByte(u32, u8),
}

/// What the machine shows.
#[derive(Clone, Copy)]
enum MachineFact {
    Over(bool),
    Ready(Option<Event>),
    StepsLeft(u32),
    /// How many bytes are written.
    Written(usize),
    /// How many instructions the history has.
    Serial(u64),
    /// The byte at an address that is committed.
    Byte(u32, u8),
}

/// Makes an event, and sees what comes of it and what the history says of it.
fn make(rt: &impl Abort, machine: &mut Machine, event: Event, outcome: Outcome) {
    assert!(rt; machine.steps_left() >= 1);
    assert!(rt; event.hart.number < machine.config().harts);
    let made = machine.history().length();
    assert_eq!(rt; machine.step(event), outcome);
    let now = machine.history().length();
    assert!(rt; made < now);
    assert_eq!(rt; now - made, 1);
    assert_eq!(rt; machine.history().entry(made), Entry { event, outcome });
}

/// Makes so many events that are alike.
fn make_each(rt: &impl Abort, machine: &mut Machine, event: Event, count: u8, outcome: Outcome) {
    for _ in 0..count {
        make(rt, machine, event, outcome);
    }
}

/// A hart comes to a load of the lock, behind so many instructions, and its cache gets the line.
fn load_lock(rt: &impl Abort, machine: &mut Machine, hart: HartId, before: u8) {
    for (kind, count, outcome) in [
        (Kind::Step, before, Outcome::Ran),
        (Kind::Step, 1, wants(LOCK, Need::Read)),
        (Kind::Order, 1, ordered()),
        (Kind::Serve, 1, served()),
        (Kind::Step, 1, Outcome::Ran),
    ] {
        make_each(rt, machine, Event { kind, hart }, count, outcome);
    }
}

fn register(rt: &impl Abort, machine: &Machine, hart: HartId, number: u8) -> Result<u32, Fail> {
    let reg = Reg::new(number).ok_or("no register")?;
    assert!(rt; hart.number < machine.config().harts);
    Ok(machine.hart(hart).regs.get(reg))
}

fn letter(rt: &impl Abort, machine: &Machine, hart: HartId, line: LineAddr) -> Letter {
    let bus = machine.bus();
    assert!(rt; usize::from(hart.number) < bus.harts());
    bus.sets(hart).letter(line)
}

/// How many instructions a hart's armed section has, each of which is one for the lock.
fn armed_count(rt: &impl Abort, machine: &Machine, hart: HartId) -> Option<u32> {
    assert!(rt; hart.number < machine.config().harts);
    match machine.armed(hart) {
        Some(Armed { count, word }) => {
            assert_eq!(rt; word, LOCK);
            Some(count)
        }
        None => None,
    }
}

fn buffered(rt: &impl Abort, machine: &Machine, hart: HartId, line: LineAddr) -> u32 {
    assert!(rt; hart.number < machine.config().harts);
    let lent = machine.lent(hart);
    let hold = lent.section.hold();
    assert_eq!(rt; hold.first(), Some(line));
    hold.read_over(lent.pool, line, &[0; 64], 0)
}

fn outs(rt: &impl Abort, machine: &Machine, hart: HartId) -> (u16, u16) {
    let pool = machine.pool();
    assert_eq!(rt; pool.owners(), 16);
    (
        pool.out(u16::from(hart.number)),
        pool.out(8 + u16::from(hart.number)),
    )
}

/// The byte at an address in main memory, or none outside memory.
fn main_byte(rt: &impl Abort, machine: &Machine, hart: HartId, address: u32) -> Option<u8> {
    assert!(rt; hart.number < machine.config().harts);
    let lent = machine.lent(hart);
    match lent.bus.byte(lent.pool, address) {
        Some(_) => Some(lent.bus.main_byte(address)),
        None => None,
    }
}

/// Sees that a hart shows this.
fn expect_hart(
    rt: &impl Abort,
    machine: &Machine,
    hart: HartId,
    fact: &HartFact,
) -> Result<(), Fail> {
    assert!(rt; hart.number < machine.config().harts);
    match fact {
        HartFact::Status(status) => assert_eq!(rt; machine.hart(hart).status, *status),
        HartFact::Register(number, value) => {
            assert_eq!(rt; register(rt, machine, hart, *number)?, *value)
        }
        HartFact::Letter(address, had) => {
            assert_eq!(rt; letter(rt, machine, hart, line_of(*address)), *had)
        }
        HartFact::Section(live) => assert_eq!(rt; machine.section(hart), *live),
        HartFact::Armed(count) => assert_eq!(rt; armed_count(rt, machine, hart), *count),
        HartFact::Held(lines) => assert_eq!(rt; machine.section_state(hart).hold().len(), *lines),
        HartFact::Buffered(address, word) => {
            assert_eq!(rt; buffered(rt, machine, hart, line_of(*address)), *word)
        }
        HartFact::Out(cache, hold) => assert_eq!(rt; outs(rt, machine, hart), (*cache, *hold)),
        HartFact::MainByte(address, byte) => {
            assert_eq!(rt; main_byte(rt, machine, hart, *address), Some(*byte))
        }
    }
    Ok(())
}

/// Sees that the machine shows this.
fn expect_machine(rt: &impl Abort, machine: &Machine, fact: &MachineFact) {
    match fact {
        MachineFact::Over(over) => assert_eq!(rt; machine.over(), *over),
        MachineFact::Ready(event) => assert_eq!(rt; machine.ready(), *event),
        MachineFact::StepsLeft(steps) => assert_eq!(rt; machine.steps_left(), *steps),
        MachineFact::Written(count) => assert_eq!(rt; machine.output().len(), *count),
        MachineFact::Serial(length) => assert_eq!(rt; machine.history().serial_len(), *length),
        MachineFact::Byte(address, byte) => assert_eq!(rt; machine.byte(*address), Some(*byte)),
    }
}

/// Plays a part of a script.
fn play_part(rt: &impl Abort, machine: &mut Machine, part: &Act) -> Result<(), Fail> {
    match part {
        Act::Make(kind, number, count, outcome) => {
            let event = Event {
                kind: *kind,
                hart: hart(*number)?,
            };
            make_each(rt, machine, event, *count, *outcome);
        }
        Act::LoadLock(number, before) => load_lock(rt, machine, hart(*number)?, *before),
        Act::ExpectHart(number, fact) => expect_hart(rt, machine, hart(*number)?, fact)?,
        Act::Expect(fact) => expect_machine(rt, machine, fact),
    }
    Ok(())
}

/// Plays a script over a machine of this configuration, which has written this at its end.
fn play(
    rt: &impl Abort,
    alloc: Global,
    file: &[u8],
    config: Config,
    script: &[Act],
    output: &[u8],
) -> Result<(), Fail> {
    let mut machine = machine(rt, alloc, file, config)?;
    assert_eq!(rt; machine.config(), config);
    for part in script {
        play_part(rt, &mut machine, part)?;
    }
    assert_eq!(rt; machine.output(), output);
    Ok(())
}

/// The write call reads its bytes in the cache: the line has to come first, and the bus is idle before that.
#[test]
fn a_program_runs_to_its_end(rt: HostRuntime) -> Result<(), Fail> {
    let script = [
        Act::ExpectHart(0, HartFact::Status(HartStatus::Running)),
        Act::Make(Kind::Order, 0, 1, Outcome::Idle),
        Act::Make(Kind::Serve, 0, 1, Outcome::Idle),
        Act::Make(Kind::Deliver, 0, 1, Outcome::Idle),
        Act::Make(Kind::Step, 0, 5, Outcome::Ran),
        Act::Make(Kind::Step, 0, 1, missed()),
        Act::Make(Kind::Step, 0, 1, Outcome::Stalled),
        Act::Make(Kind::Order, 0, 1, ordered()),
        Act::Make(Kind::Step, 0, 1, Outcome::Stalled),
        Act::Make(Kind::Serve, 0, 1, served()),
        Act::Make(Kind::Step, 0, 3, Outcome::Ran),
        Act::Expect(MachineFact::Over(false)),
        Act::Make(Kind::Step, 0, 1, Outcome::Ran),
        Act::Expect(MachineFact::Over(true)),
        Act::Expect(MachineFact::Ready(None)),
        Act::Make(Kind::Step, 0, 1, Outcome::Idle),
        Act::Expect(MachineFact::StepsLeft(2)),
        Act::ExpectHart(0, HartFact::Status(HartStatus::Exited { code: 0 })),
        Act::Expect(MachineFact::Serial(9)),
    ];
    play(&rt, rt.alloc(), &HELLO, plain(1, 20), &script, b"A\n")
}

/// Ten steps of a hart that waits, in each mode: five run, one misses, and the others stall.
#[test]
fn a_machine_has_so_many_steps(rt: HostRuntime) -> Result<(), Fail> {
    let script = [
        Act::Make(Kind::Step, 0, 5, Outcome::Ran),
        Act::Make(Kind::Step, 0, 1, missed()),
        Act::Make(Kind::Step, 0, 4, Outcome::Stalled),
        Act::Expect(MachineFact::StepsLeft(0)),
    ];
    for mode in [Mode::Plain, Mode::Sle, Mode::Tlr] {
        let config = Config {
            mode,
            ..plain(1, 10)
        };
        play(&rt, rt.alloc(), &HELLO, config, &script, b"")?;
    }
    Ok(())
}

/// Two harts ask for one line: the second waits behind the first, and then for the end of its hold.
#[test]
fn two_harts_share_a_line(rt: HostRuntime) -> Result<(), Fail> {
    let first = hart(0)?;
    let behind = Outcome::Blocked {
        why: Why::Behind,
        by: first,
    };
    let locked = Outcome::Blocked {
        why: Why::Locked,
        by: first,
    };
    let script = [
        Act::Make(Kind::Step, 0, 5, Outcome::Ran),
        Act::Make(Kind::Step, 0, 1, missed()),
        Act::Make(Kind::Step, 1, 5, Outcome::Ran),
        Act::Make(Kind::Step, 1, 1, missed()),
        Act::Make(Kind::Order, 0, 1, ordered()),
        Act::Make(Kind::Order, 1, 1, ordered()),
        Act::Make(Kind::Serve, 1, 1, behind),
        Act::Make(Kind::Serve, 0, 1, served()),
        Act::ExpectHart(0, HartFact::Letter(0x1_0040, Letter::E)),
        Act::Make(Kind::Serve, 1, 1, locked),
        Act::Make(Kind::Step, 0, 1, Outcome::Ran),
        Act::Expect(MachineFact::Written(2)),
        Act::Make(Kind::Serve, 1, 1, served()),
        Act::ExpectHart(0, HartFact::Letter(0x1_0040, Letter::S)),
        Act::ExpectHart(1, HartFact::Letter(0x1_0040, Letter::S)),
        Act::Make(Kind::Step, 1, 1, Outcome::Ran),
    ];
    play(&rt, rt.alloc(), &HELLO, plain(2, 30), &script, b"A\nA\n")
}

/// With room for one line, a written line goes back to main memory as another line comes.
#[test]
fn a_written_line_is_written_back(rt: HostRuntime) -> Result<(), Fail> {
    let config = Config {
        sets: 1,
        ways: 1,
        ..plain(1, 20)
    };
    let script = [
        Act::Make(Kind::Step, 0, 2, Outcome::Ran),
        Act::Make(Kind::Step, 0, 1, wants(0x1_1000, Need::Write)),
        Act::Make(Kind::Order, 0, 1, ordered()),
        Act::Make(Kind::Serve, 0, 1, served()),
        Act::Make(Kind::Step, 0, 1, Outcome::Ran),
        Act::ExpectHart(0, HartFact::Letter(0x1_1000, Letter::M)),
        Act::Expect(MachineFact::Byte(0x1_1000, 5)),
        Act::ExpectHart(0, HartFact::MainByte(0x1_1000, 0)),
        Act::Make(Kind::Step, 0, 1, wants(0x1_1040, Need::Read)),
        Act::Make(Kind::Order, 0, 1, ordered()),
        Act::Make(Kind::Serve, 0, 1, served()),
        Act::ExpectHart(0, HartFact::Letter(0x1_1000, Letter::I)),
        Act::Expect(MachineFact::Byte(0x1_1000, 5)),
        Act::ExpectHart(0, HartFact::MainByte(0x1_1000, 5)),
    ];
    play(&rt, rt.alloc(), &STORES, config, &script, b"")
}

/// A machine over the lock, with one hart that elides.
fn eliding() -> Config {
    Config {
        mode: Mode::Sle,
        ..plain(1, 20)
    }
}

/// The swap of a lock begins a section, whose store waits in the section until the release commits it.
#[test]
fn a_section_stores_at_its_release(rt: HostRuntime) -> Result<(), Fail> {
    let live = Live {
        count: 1,
        word: LOCK,
        old: 0,
        new: 5,
    };
    let script = [
        Act::Make(Kind::Step, 0, 2, Outcome::Ran),
        Act::Make(Kind::Step, 0, 1, wants(LOCK, Need::Read)),
        Act::Make(Kind::Order, 0, 1, ordered()),
        Act::Make(Kind::Serve, 0, 1, served()),
        Act::Make(Kind::Step, 0, 1, Outcome::Began),
        Act::ExpectHart(0, HartFact::Section(Some(live))),
        Act::ExpectHart(0, HartFact::Held(0)),
        Act::Make(Kind::Step, 0, 1, wants(0x1_1040, Need::Write)),
        Act::Make(Kind::Order, 0, 1, ordered()),
        Act::Make(Kind::Serve, 0, 1, served()),
        Act::Make(Kind::Step, 0, 1, Outcome::Buffered),
        Act::Expect(MachineFact::Byte(0x1_1040, 0)),
        Act::ExpectHart(0, HartFact::Buffered(0x1_1040, 5)),
        Act::Make(Kind::Step, 0, 1, Outcome::Committed { count: 3 }),
        Act::Expect(MachineFact::Byte(0x1_1040, 5)),
        Act::ExpectHart(0, HartFact::Section(None)),
        Act::ExpectHart(0, HartFact::Held(0)),
    ];
    play(&rt, rt.alloc(), &LOCKS, eliding(), &script, b"")
}

/// A slot is out for each line of a cache, here those of the lock and of the word behind it, and one for each line that
/// a section has stored to, until its release.
#[test]
fn a_slot_is_out_for_each_line_that_is_held(rt: HostRuntime) -> Result<(), Fail> {
    let script = [
        Act::ExpectHart(0, HartFact::Out(0, 0)),
        Act::Make(Kind::Step, 0, 2, Outcome::Ran),
        Act::Make(Kind::Step, 0, 1, wants(LOCK, Need::Read)),
        Act::Make(Kind::Order, 0, 1, ordered()),
        Act::Make(Kind::Serve, 0, 1, served()),
        Act::Make(Kind::Step, 0, 1, Outcome::Began),
        Act::Make(Kind::Step, 0, 1, wants(0x1_1040, Need::Write)),
        Act::ExpectHart(0, HartFact::Out(1, 0)),
        Act::Make(Kind::Order, 0, 1, ordered()),
        Act::Make(Kind::Serve, 0, 1, served()),
        Act::Make(Kind::Step, 0, 1, Outcome::Buffered),
        Act::ExpectHart(0, HartFact::Out(2, 1)),
        Act::Make(Kind::Step, 0, 1, Outcome::Committed { count: 3 }),
        Act::ExpectHart(0, HartFact::Out(2, 0)),
    ];
    play(&rt, rt.alloc(), &LOCKS, eliding(), &script, b"")
}

/// The harts' digits come in the order in which the harts were stepped.
#[test]
fn the_order_of_events_is_the_order_of_the_output(rt: HostRuntime) -> Result<(), Fail> {
    for (first, second, output) in [(0, 1, b"01".as_slice()), (1, 0, b"10".as_slice())] {
        let script = [
            Act::Make(Kind::Step, first, 6, Outcome::Ran),
            Act::Make(Kind::Step, first, 1, missed()),
            Act::Make(Kind::Order, first, 1, ordered()),
            Act::Make(Kind::Serve, first, 1, served()),
            Act::Make(Kind::Step, first, 4, Outcome::Ran),
            Act::Expect(MachineFact::Over(false)),
            Act::Make(Kind::Step, second, 6, Outcome::Ran),
            Act::Make(Kind::Step, second, 1, missed()),
            Act::Make(Kind::Order, second, 1, ordered()),
            Act::Make(Kind::Serve, second, 1, served()),
            Act::Make(Kind::Step, second, 4, Outcome::Ran),
            Act::Expect(MachineFact::Over(true)),
            Act::Expect(MachineFact::StepsLeft(0)),
        ];
        play(&rt, rt.alloc(), &DIGITS, plain(2, 26), &script, output)?;
    }
    Ok(())
}

/// What is shown of memory and of a hart before the first event.
#[test]
fn a_machine_begins_as_its_image(rt: HostRuntime) -> Result<(), Fail> {
    let machine = machine(&rt, rt.alloc(), &HELLO, plain(1, 1))?;
    assert_eq!(rt; machine.byte(0xffff), None);
    assert_eq!(rt; machine.byte(0x1_0000), Some(0x7f));
    assert_eq!(rt; machine.byte(0x1_0079), Some(0x0a));
    assert_eq!(rt; machine.byte(0x2_007f), Some(0));
    assert_eq!(rt; machine.byte(0x2_0080), None);
    let only = hart(0)?;
    assert!(rt; only.number < machine.config().harts);
    assert_eq!(rt; machine.hart(only).pc, 0x1_0054);
    assert_eq!(rt; machine.shown(only), machine.hart(only));
    assert_eq!(rt; machine.output(), b"".as_slice());
    assert_eq!(rt; machine.history().length(), 0);
    Ok(())
}

/// The fault of a configuration of the program for one hart, or none where a machine is made.
fn fault_of(rt: &impl Abort, alloc: Global, config: Config) -> Result<Option<ConfigFault>, Fail> {
    match made(rt, alloc, &HELLO, config)? {
        Ok(_) => Ok(None),
        Err(MakeFault::Config { fault }) => Ok(Some(fault)),
        Err(MakeFault::NoMemory) => Err("no memory")?,
    }
}

/// Numbers of sets, ways and lines, the longest section and the steps, each just in its range and just
/// out of it, with the fault.
const FIELDS: [(u8, u8, u8, u32, u32, Option<ConfigFault>); 16] = [
    (1, 1, 1, 2, 1, None),
    (64, 8, 32, 65_536, 16_777_216, None),
    (2, 4, 16, 2_000, 10, None),
    (0, 4, 16, 2_000, 10, Some(ConfigFault::Sets)),
    (3, 4, 16, 2_000, 10, Some(ConfigFault::Sets)),
    (65, 4, 16, 2_000, 10, Some(ConfigFault::Sets)),
    (128, 4, 16, 2_000, 10, Some(ConfigFault::Sets)),
    (16, 0, 16, 2_000, 10, Some(ConfigFault::Ways)),
    (16, 9, 16, 2_000, 10, Some(ConfigFault::Ways)),
    (16, 4, 0, 2_000, 10, Some(ConfigFault::Lines)),
    (16, 4, 33, 2_000, 10, Some(ConfigFault::Lines)),
    (16, 4, 16, 1, 10, Some(ConfigFault::Long)),
    (16, 4, 16, 65_537, 10, Some(ConfigFault::Long)),
    (16, 4, 16, 2_000, 0, Some(ConfigFault::Steps)),
    (16, 4, 16, 2_000, 16_777_217, Some(ConfigFault::Steps)),
    (16, 9, 33, 1, 0, Some(ConfigFault::Ways)),
];

/// The number of harts is the image's, and so in its range.
#[test]
fn each_field_is_judged(rt: HostRuntime) -> Result<(), Fail> {
    for (sets, ways, lines, long, steps, fault) in &FIELDS {
        let config = Config {
            harts: 1,
            mode: Mode::Plain,
            sets: *sets,
            ways: *ways,
            lines: *lines,
            long: *long,
            steps: *steps,
        };
        assert_eq!(rt; fault_of(&rt, rt.alloc(), config)?, *fault);
    }
    Ok(())
}

/// Each fault says what it is.
#[test]
fn faults_have_a_text(rt: HostRuntime) -> Result<(), Fail> {
    let faults = [
        (MakeFault::NoMemory, "no memory for the machine"),
        (
            MakeFault::Config {
                fault: ConfigFault::Ways,
            },
            "the configuration is out of range: Ways",
        ),
    ];
    for (fault, text) in faults {
        let shown = format!(in rt.alloc(); "{fault}")?;
        assert_eq!(rt; shown.as_str(), text);
    }
    Ok(())
}
