use super::*;
use crate::report::put_hart_line;
use chronicle::{History, Tally};
use el_base::{Config, Entry, Event, Freed, HartId, Kind, Losers, Mode, Outcome};
use el_io::{Failed, MemSink, SureSink};
use elf_image::load;
use rv_alu::HartStatus;
use std::alloc::Global;
use std::process::Abort;
use std::test::Fail;
use step_back::Machine;
use timetable::{Times, tabulate};
use worked_files::HELLO;

/// The place in the file of the last `addi x10,x0,0`, which gives the exit code.
const CODE: usize = 108;

/// The place in the file of the first instruction.
const FIRST: usize = 84;

const KINDS: [Kind; 4] = [Kind::Step, Kind::Order, Kind::Serve, Kind::Deliver];

/// A machine in lock removal of a file that is known to be an image, after these many events of each hart
/// in turn, of the kinds in their order.
fn run(rt: &impl Abort, alloc: Global, file: &[u8], events: &[(u8, u32)]) -> Result<Machine, Fail> {
    run_in(rt, alloc, Mode::Tlr, file, events)
}

/// The same in any mode.
fn run_in(
    rt: &impl Abort,
    alloc: Global,
    mode: Mode,
    file: &[u8],
    events: &[(u8, u32)],
) -> Result<Machine, Fail> {
    assert!(rt; file.len() == 122);
    assert!(rt; (1..=8).contains(&events.len()));
    let harts = events.len() as u8;
    let image = load(alloc, file, harts).map_err(|_| "no image")?;
    let config = Config {
        harts,
        mode,
        steps: 400,
        ..Config::usual()
    };
    assert!(rt; image.harts() == config.harts);
    let mut machine = Machine::make(alloc, image, config).map_err(|_| "no machine")?;
    make_events(rt, &mut machine, events);
    Ok(machine)
}

/// Makes these many events of each hart in turn.
fn make_events(rt: &impl Abort, machine: &mut Machine, events: &[(u8, u32)]) {
    for (number, count) in events {
        let hart = HartId::at(usize::from(*number % 8));
        for place in 0..*count {
            assert!(rt; machine.steps_left() >= 1);
            assert!(rt; hart.number < machine.config().harts);
            let kind = KINDS[place as usize % 4];
            let _ = machine.step(Event { kind, hart });
        }
    }
}

/// A sink that took the report of a machine.
fn told(alloc: Global, machine: &Machine) -> Result<SureSink, Fail> {
    let mut sink = SureSink::make(alloc, 2_000)?;
    write_report(&mut sink, machine)?;
    Ok(sink)
}

/// A sink that took the report of a machine after these events.
fn reported(
    rt: &impl Abort,
    alloc: Global,
    mode: Mode,
    file: &[u8],
    events: &[(u8, u32)],
) -> Result<SureSink, Fail> {
    let machine = run_in(rt, alloc, mode, file, events)?;
    told(alloc, &machine)
}

#[test]
fn a_report_is_three_lines_for_one_hart(rt: HostRuntime) -> Result<(), Fail> {
    for (mode, name) in [
        (Mode::Plain, "plain"),
        (Mode::Sle, "sle"),
        (Mode::Tlr, "tlr"),
    ] {
        let sink = reported(&rt, rt.alloc(), mode, &HELLO, &[(0, 37)])?;
        let text = format!(in rt.alloc();
            "elide {name} harts 1 events 37\n\
            hart 0 ran 9 began 0 committed 0 instr 0 conflict 0 room 0 lines 0 long 0 call 0 mixed 0 \
            missed 1 stalled 0 blocked 0 exit 0\n\
            serial 9 out 2\n"
        )?;
        assert_eq!(rt; sink.taken(), text.as_bytes());
    }
    Ok(())
}

/// What a hart's line ends with, by the word that stands at a place of the file, and the events.
#[test]
fn a_line_ends_with_how_its_hart_stands(rt: HostRuntime) -> Result<(), Fail> {
    // `lw x10,2(x0)`, `addi x10,x0,-1`, and the program as it is.
    let rows = [
        (
            FIRST,
            [0x03, 0x25, 0x20, 0x00],
            4,
            " ran 1 ",
            " trap 4 at 00010054\nserial 1 out 0\n",
        ),
        (
            CODE,
            [0x13, 0x05, 0xf0, 0xff],
            37,
            " ran 9 ",
            " exit 4294967295\nserial 9 out 2\n",
        ),
        (
            CODE,
            [0x13, 0x05, 0x00, 0x00],
            20,
            " ran 5 ",
            " running\nserial 5 out 0\n",
        ),
    ];
    for (place, word, events, ran, end) in rows {
        let mut file = HELLO;
        file[place..place + 4].copy_from_slice(&word);
        let sink = reported(&rt, rt.alloc(), Mode::Tlr, &file, &[(0, events)])?;
        let text = str::from_utf8(sink.taken()).map_err(|_| "no text")?;
        assert!(rt; text.contains(ran), "{text}");
        assert!(rt; text.ends_with(end), "{text}");
    }
    Ok(())
}

#[test]
fn each_of_eight_harts_has_its_line(rt: HostRuntime) -> Result<(), Fail> {
    let events = [
        (0, 1),
        (1, 9),
        (2, 13),
        (3, 5),
        (4, 17),
        (5, 37),
        (6, 25),
        (7, 29),
    ];
    let sink = reported(&rt, rt.alloc(), Mode::Tlr, &HELLO, &events)?;
    let text = str::from_utf8(sink.taken()).map_err(|_| "no text")?;
    let mut lines = text.lines();
    assert_eq!(rt; lines.next(), Some("elide tlr harts 8 events 136"));
    for (number, ran) in [
        (0, 1),
        (1, 3),
        (2, 4),
        (3, 2),
        (4, 5),
        (5, 9),
        (6, 6),
        (7, 7),
    ] {
        let status = if number == 5 { "exit 0" } else { "running" };
        let missed = if number < 5 { 0 } else { 1 };
        let line = format!(in rt.alloc();
            "hart {number} ran {ran} began 0 committed 0 instr 0 conflict 0 \
            room 0 lines 0 long 0 call 0 mixed 0 missed {missed} stalled 0 blocked 0 {status}"
        )?;
        assert_eq!(rt; lines.next(), Some(line.as_str()));
    }
    assert_eq!(rt; lines.next(), Some("serial 37 out 6"));
    assert_eq!(rt; lines.next(), None);
    Ok(())
}

/// Whether a sink that takes a byte at a time is told what one that takes all at once is told.
fn is_told_bit_by_bit(alloc: Global, machine: &Machine) -> Result<bool, Fail> {
    let mut slow = MemSink::make(alloc, 2_000, 1, &[])?;
    write_report(&mut slow, machine)?;
    let whole = told(alloc, machine)?;
    Ok(slow.taken() == whole.taken())
}

#[test]
fn a_sink_is_given_the_rest_of_what_it_did_not_take(rt: HostRuntime) -> Result<(), Fail> {
    let machine = run(&rt, rt.alloc(), &HELLO, &[(0, 37)])?;
    assert!(rt; is_told_bit_by_bit(rt.alloc(), &machine)?);
    Ok(())
}

/// The bytes that were taken by a sink that failed at its put of this number.
fn taken_until(alloc: Global, machine: &Machine, failing: u32) -> Result<MemSink, Fail> {
    let mut sink = MemSink::make(alloc, 2_000, 2_000, &[failing])?;
    match write_report(&mut sink, machine) {
        Ok(()) => Err("no fault")?,
        Err(Failed) => Ok(sink),
    }
}

#[test]
fn a_sink_that_failed_has_the_beginning(rt: HostRuntime) -> Result<(), Fail> {
    let machine = run(&rt, rt.alloc(), &HELLO, &[(0, 37)])?;
    let rows = [
        (1, b"".as_slice()),
        (2, b"elide"),
        (13, b"elide tlr harts 1 events 37\n"),
    ];
    for (put, taken) in rows {
        let sink = taken_until(rt.alloc(), &machine, put)?;
        assert_eq!(rt; sink.taken(), taken);
    }
    Ok(())
}

#[test]
fn each_number_stands_behind_its_name(rt: HostRuntime) -> Result<(), Fail> {
    let tally = Tally {
        ran: 18_446_744_073_709_551_615,
        began: 2,
        committed: 3,
        instr: 44,
        conflict: 5,
        room: 6,
        lines: 7,
        long: 8,
        call: 9,
        mixed: 10,
        missed: 11,
        stalled: 12,
        blocked: 13,
    };
    let mut sink = SureSink::make(rt.alloc(), 400)?;
    let status = HartStatus::Trapped {
        cause: 7,
        pc: 0xdead_beef,
    };
    put_hart_line(&mut sink, 6, tally, status)?;
    let text =
        b"hart 6 ran 18446744073709551615 began 2 committed 3 instr 44 conflict 5 room 6 lines 7 \
        long 8 call 9 mixed 10 missed 11 stalled 12 blocked 13 trap 7 at deadbeef\n";
    assert_eq!(rt; sink.taken(), text.as_slice());
    Ok(())
}

/// The table of two harts of which the second loses to the first with two instructions.
fn one_loss(rt: &impl Abort, alloc: Global) -> Result<Times, Fail> {
    let first = HartId::new(0).ok_or("no hart 0")?;
    let second = HartId::new(1).ok_or("no hart 1")?;
    let losers = Losers::none().with(second, first);
    let freed = Freed::none();
    let events = [
        (Kind::Step, second, Outcome::Began),
        (Kind::Step, second, Outcome::Buffered),
        (Kind::Order, first, Outcome::Ordered { losers, freed }),
    ];
    let mut history = History::make(alloc, 3)?;
    for (kind, hart, outcome) in events {
        assert!(rt; history.spare() >= 1);
        history.push(Entry {
            event: Event { kind, hart },
            outcome,
        });
    }
    Ok(tabulate(&history))
}

/// What a run to its end took.
fn run_times(rt: &impl Abort, alloc: Global) -> Result<Times, Fail> {
    let machine = run(rt, alloc, &HELLO, &[(0, 37)])?;
    Ok(tabulate(machine.history()))
}

#[test]
fn a_plain_run_has_two_lines_of_units(rt: HostRuntime) -> Result<(), Fail> {
    let times = run_times(&rt, rt.alloc())?;
    let mut sink = SureSink::make(rt.alloc(), 100)?;
    write_times(&mut sink, &times, 1)?;
    let text = b"time 0 units 34 lost 0\ntime total 34\n";
    assert_eq!(rt; sink.taken(), text.as_slice());
    Ok(())
}

#[test]
fn a_loss_has_its_line(rt: HostRuntime) -> Result<(), Fail> {
    let mut sink = SureSink::make(rt.alloc(), 200)?;
    write_times(&mut sink, &one_loss(&rt, rt.alloc())?, 2)?;
    let text = b"time 0 units 4 lost 0\ntime 1 units 12 lost 2\n\
        lost 1 to 0 times 1 instr 2\ntime total 16\n";
    assert_eq!(rt; sink.taken(), text.as_slice());
    Ok(())
}

#[test]
fn a_failed_put_ends_the_lines_of_units(rt: HostRuntime) -> Result<(), Fail> {
    let times = one_loss(&rt, rt.alloc())?;
    let mut sink = MemSink::make(rt.alloc(), 200, 200, &[13])?;
    match write_times(&mut sink, &times, 2) {
        Ok(()) => Err("no fault")?,
        Err(Failed) => (),
    }
    let line = b"time 0 units 4 lost 0\n";
    assert_eq!(rt; sink.taken(), line.as_slice());
    Ok(())
}
