//! Words of events and states, written by hand.

use crate::tests::asserts::{same, same_at};
use crate::tests::names::NAMED;
use bus_order::Request;
use chronicle::History;
use el_base::{
    Cause, Config, Entry, Event, Freed, HartId, Kind, LineAddr, Losers, Need, Outcome, Stamped, Why,
};
use elf_image::{Image, load};
use elf_symbols::{Symbols, read_symbols};
use lab::{Letters, Shown, Sight, Wait, What, tabulate};
use lab_text::{
    Item, Member, Names, Phrase, is_about, write_event, write_event_json, write_state, write_wait,
};
use machine::Machine;
use mail::Message;
use moesi::Letter;
use rv_alu::{Action, HartStatus, HartView, Regs};
use rv_word::{AmoOp, LoadWidth, Reg};
use section_ctl::{Armed, Live};
use std::alloc::Global;
use std::process::Abort;
use std::test::Fail;

const H0: HartId = HartId { number: 0 };

const H1: HartId = HartId { number: 1 };

const H2: HartId = HartId { number: 2 };

/// The line of 0x10540.
const LOCK: LineAddr = LineAddr { number: 0x415 };

const ASKED: Request = Request {
    hart: H1,
    line: LOCK,
    need: Need::Write,
    stamp: Some(Stamped { clock: 3, hart: H1 }),
};

use worked_files::HELLO;

/// Items, in words and as JSON.
const ITEMS: [(Item, &str, &str); 24] = [
    (
        Item::Began {
            word: 0x1_0540,
            old: 0,
            new: 1,
        },
        "begun on 00010540 <lock>, 0 to 1",
        r#"{"is":"began","lock":{"at":66880,"name":"lock","offset":0},"old":0,"new":1}"#,
    ),
    (Item::Private, "kept in its section", r#"{"is":"private"}"#),
    (
        Item::Committed {
            word: 0x1_0544,
            count: 12,
        },
        "committed 12 instructions on 00010544 <lock+4>",
        r#"{"is":"committed","lock":{"at":66884,"name":"lock","offset":4},"count":12}"#,
    ),
    (
        Item::RolledBack {
            word: 0x1_000c,
            cause: Cause::Room,
        },
        "rolled back on 0001000c, room",
        r#"{"is":"rolled back","lock":{"at":65548},"cause":"room"}"#,
    ),
    (Item::Armed, "armed", r#"{"is":"armed"}"#),
    (
        Item::LetGo { count: 1 },
        "let go 1 instruction",
        r#"{"is":"let go","count":1}"#,
    ),
    (
        Item::Read {
            address: 12,
            len: 4,
            value: Some(255),
        },
        "read 4 bytes at 0000000c = 0xff",
        r#"{"is":"read","from":{"at":12},"bytes":4,"value":255}"#,
    ),
    (
        Item::Stored {
            address: 13,
            len: 1,
            value: None,
        },
        "stored 1 byte at 0000000d",
        r#"{"is":"stored","to":{"at":13},"bytes":1,"value":null}"#,
    ),
    (
        Item::Appended {
            address: 12,
            len: 2,
        },
        "wrote 2 bytes at 0000000c to the output",
        r#"{"is":"output","from":{"at":12},"bytes":2}"#,
    ),
    (
        Item::Register {
            index: 10,
            value: 17,
        },
        "a0 = 0x11",
        r#"{"is":"register","name":"a0","value":17}"#,
    ),
    (
        Item::Went { to: 64 },
        "goes to 00000040",
        r#"{"is":"goes","to":{"at":64}}"#,
    ),
    (
        Item::Exited { code: 7 },
        "exit 7",
        r#"{"is":"exit","code":7}"#,
    ),
    (
        Item::Trapped { cause: 5 },
        "trap 5",
        r#"{"is":"trap","cause":5}"#,
    ),
    (
        Item::Missed {
            line: LineAddr { number: 2 },
            need: Need::Read,
        },
        "missed read 00000080",
        r#"{"is":"missed","need":"read","line":{"at":128}}"#,
    ),
    (Item::Stalled, "waits", r#"{"is":"waits"}"#),
    (
        Item::Asked { request: ASKED },
        "write 00010540 <lock>, stamp 3",
        r#"{"is":"request","hart":1,"need":"write","line":{"at":66880,"name":"lock","offset":0},"stamp":3}"#,
    ),
    (
        Item::At { place: 2 },
        "place 2",
        r#"{"is":"place","place":2}"#,
    ),
    (
        Item::Turned {
            hart: H2,
            from: Letter::M,
            to: Letter::O,
        },
        "hart 2 M to O",
        r#"{"is":"letter","hart":2,"from":"M","to":"O"}"#,
    ),
    (
        Item::Took {
            message: Message::Marker { from: H2 },
        },
        "marker from hart 2",
        r#"{"is":"marker","from":2}"#,
    ),
    (
        Item::Took {
            message: Message::Probe { origin: H1 },
        },
        "probe of hart 1",
        r#"{"is":"probe","of":1}"#,
    ),
    (
        Item::About {
            request: Request {
                stamp: None,
                ..ASKED
            },
        },
        "for write 00010540 <lock>",
        r#"{"is":"about","hart":1,"need":"write","line":{"at":66880,"name":"lock","offset":0}}"#,
    ),
    (
        Item::Blocked {
            why: Why::Retained,
            by: H1,
        },
        "blocked, retained by hart 1",
        r#"{"is":"blocked","why":"retained","by":1}"#,
    ),
    (
        Item::Lost {
            loser: H0,
            winner: H1,
        },
        "hart 0 lost to hart 1",
        r#"{"is":"lost","hart":0,"to":1}"#,
    ),
    (
        Item::Freed { hart: H2, count: 5 },
        "hart 2 let go, 5 instructions",
        r#"{"is":"freed","hart":2,"count":5}"#,
    ),
];

/// An item reads so, in words and as JSON.
fn reads(
    rt: &impl Abort,
    alloc: Global,
    phrase: Phrase<'_>,
    words: &str,
    object: &str,
) -> Result<(), Fail> {
    let Phrase { item, symbols } = phrase;
    let text = format!(in alloc; "{}", phrase)?;
    let json = format!(in alloc; "{}", Member { item, symbols })?;
    same(rt, (text.as_str(), json.as_str()), (words, object));
    Ok(())
}

#[test]
fn items_read_as_written(rt: HostRuntime) -> Result<(), Fail> {
    let symbols = &read_symbols(rt.alloc(), &NAMED).map_err(|_| "no symbols")?;
    for (item, words, object) in ITEMS {
        reads(&rt, rt.alloc(), Phrase { item, symbols }, words, object)?;
    }
    Ok(())
}

fn image(alloc: Global) -> Result<Image, Fail> {
    Ok(load(alloc, &HELLO, 2).map_err(|_| "no image")?)
}

/// A running hart at a pc, with a value in a0.
fn at(pc: u32, a0: u32) -> HartView {
    let mut regs = Regs::zero();
    regs.set(Reg { number: 10 }, a0);
    HartView {
        pc,
        regs,
        reserved: None,
        status: HartStatus::Running,
    }
}

const LIVE: Live = Live {
    count: 1,
    word: 0x1_0540,
    old: 0,
    new: 1,
};

fn step(place: u32, outcome: Outcome, what: What) -> Shown {
    shown(place, Kind::Step, H2, outcome, what)
}

fn shown(place: u32, kind: Kind, hart: HartId, outcome: Outcome, what: What) -> Shown {
    Shown {
        place,
        event: Event { kind, hart },
        outcome,
        what,
    }
}

/// An acquire that is elided.
fn began() -> Shown {
    let before = Sight {
        view: at(0x1_0054, 7),
        section: None,
        armed: None,
    };
    let after = Sight {
        view: at(0x1_0058, 0),
        section: Some(LIVE),
        armed: None,
    };
    let action = Action::Amo {
        op: AmoOp::Swap,
        rd: Reg { number: 10 },
        address: 0x1_0540,
        source: 1,
    };
    let what = What::Step {
        before,
        action,
        after,
    };
    step(413, Outcome::Began, what)
}

/// A load outside of a section, that finds what the register had.
fn ran() -> Shown {
    let before = Sight {
        view: at(0x1_0058, 7),
        section: None,
        armed: None,
    };
    let after = Sight {
        view: at(0x1_005c, 7),
        section: None,
        armed: None,
    };
    let action = Action::Load {
        width: LoadWidth::Word,
        rd: Reg { number: 10 },
        address: 0x1_0540,
    };
    let what = What::Step {
        before,
        action,
        after,
    };
    step(7, Outcome::Ran, what)
}

/// An armed section on the lock's line is let go, since a load comes next.
fn let_go() -> Shown {
    let view = at(0x1_0058, 7);
    let armed = Armed {
        count: 1,
        word: 0x1_0540,
    };
    let before = Sight {
        view,
        section: None,
        armed: Some(armed),
    };
    let after = Sight {
        armed: None,
        ..before
    };
    let action = Action::Load {
        width: LoadWidth::Word,
        rd: Reg { number: 10 },
        address: 0x1_0040,
    };
    let what = What::Step {
        before,
        action,
        after,
    };
    step(8, Outcome::LetGo { count: 1 }, what)
}

/// A request for the lock's line is served, and hart 0 loses its section.
fn served() -> Shown {
    let mut before: Letters = [Letter::I; 8];
    before[0] = Letter::M;
    let mut after: Letters = [Letter::I; 8];
    after[1] = Letter::M;
    let what = What::Serve {
        request: Some(ASKED),
        before,
        after,
    };
    let outcome = Outcome::Served {
        losers: Losers::none().with(H0, H1),
        freed: Freed::none(),
    };
    shown(420, Kind::Serve, H1, outcome, what)
}

/// A probe reaches a hart, and leads to nothing.
fn delivered() -> Shown {
    let what = What::Deliver {
        message: Some(Message::Probe { origin: H1 }),
        about: Some(ASKED),
    };
    let losers = Losers::none();
    shown(421, Kind::Deliver, H0, Outcome::Delivered { losers }, what)
}

/// A hart without a request has nothing to order.
fn idle() -> Shown {
    let what = What::Order {
        request: None,
        at: None,
    };
    shown(422, Kind::Order, H0, Outcome::Idle, what)
}

/// The lines of the events above.
const LINES: &str = "\
413 hart 2 step 00010054 <_start+44> li a0,1: begun on 00010540 <lock>, 0 to 1; a0 = 0x0
7 hart 2 step 00010058 <_start+48> auipc a1,0x0: read 4 bytes at 00010540 <lock> = 0x7
8 hart 2 step 00010058 <_start+48> auipc a1,0x0: let go 1 instruction
420 hart 1 serve write 00010540 <lock>, stamp 3: hart 0 M to I, hart 1 I to M; hart 0 lost to hart 1
421 hart 0 deliver probe of hart 1 for write 00010540 <lock>, stamp 3: no loss
422 hart 0 order: nothing to do
";

/// The same as JSON, of the first, the third and the last.
const OBJECTS: &str =
    r#"{"event":413,"hart":2,"kind":"step","pc":{"at":65620,"name":"_start","offset":68},"insn":"li a0,1","did":[{"is":"began","lock":{"at":66880,"name":"lock","offset":0},"old":0,"new":1},{"is":"register","name":"a0","value":0}]}
{"event":420,"hart":1,"kind":"serve","did":[{"is":"request","hart":1,"need":"write","line":{"at":66880,"name":"lock","offset":0},"stamp":3},{"is":"letter","hart":0,"from":"M","to":"I"},{"is":"letter","hart":1,"from":"I","to":"M"},{"is":"lost","hart":0,"to":1}]}
{"event":422,"hart":0,"kind":"order","did":[]}
"#;

/// The lines of the events above, and some of them as objects.
fn write_events(lines: &mut String, objects: &mut String, names: &Names<'_>) -> Result<(), Fail> {
    write_event(lines, &began(), names)?;
    write_event(lines, &ran(), names)?;
    write_event(lines, &let_go(), names)?;
    write_event(lines, &served(), names)?;
    write_event(lines, &delivered(), names)?;
    write_event(lines, &idle(), names)?;
    write_event_json(objects, &began(), names)?;
    write_event_json(objects, &served(), names)?;
    write_event_json(objects, &idle(), names)?;
    Ok(())
}

#[test]
fn events_read_as_written(rt: HostRuntime) -> Result<(), Fail> {
    let symbols = &read_symbols(rt.alloc(), &NAMED).map_err(|_| "no symbols")?;
    let image = &image(rt.alloc())?;
    let mut lines = String::new(rt.alloc());
    let mut objects = String::new(rt.alloc());
    write_events(&mut lines, &mut objects, &Names { symbols, image })?;
    same(&rt, lines.as_str(), LINES);
    same(&rt, objects.as_str(), OBJECTS);
    Ok(())
}

#[test]
fn letting_go_is_about_the_line_of_its_word(rt: HostRuntime) {
    for (address, about) in [
        (0x1_0540, true),
        (0x1_0578, true),
        (0x1_0580, false),
        (0x1_0040, true),
        (0x1_0058, true),
    ] {
        same_at(&rt, address, is_about(&let_go(), address), about);
    }
}

#[test]
fn a_wait_reads_as_written(rt: HostRuntime) -> Result<(), Fail> {
    let symbols = &read_symbols(rt.alloc(), &NAMED).map_err(|_| "no symbols")?;
    let mut history = History::make(rt.alloc(), 3)?;
    for winner in [H1, H2, H1] {
        let losers = Losers::none().with(H0, winner);
        let event = Event {
            kind: Kind::Deliver,
            hart: H0,
        };
        let outcome = Outcome::Delivered { losers };
        if history.spare() > 0 {
            history.push(Entry { event, outcome });
        }
    }
    let times = tabulate(&history);
    let waiting = Wait {
        pc: 0x1_0054,
        line: Some(LOCK),
        last: Some(4),
    };
    let going = Wait {
        pc: 0x1_0000,
        line: None,
        last: Some(99),
    };
    let mut lines = String::new(rt.alloc());
    write_wait(&mut lines, H0, &waiting, &times, 100, symbols)?;
    write_wait(&mut lines, H1, &going, &times, 100, symbols)?;
    same(
        &rt,
        lines.as_str(),
        "hart 0 at 00010054 <_start+44> waits for line 00010540 <lock>, lost 2 times to hart 1, 1 time to hart 2; \
         no instruction took effect in the last 95 events\nhart 1 at 00010000\n",
    );
    Ok(())
}

/// Two harts, of which the first has run five instructions and asks for the line of its text.
const ASKING: &str = "\
hart 0 at 00010068, running
  raised read 00010040
hart 1 at 00010054, running
0   1   line
";

/// The same when the line has come.
const HOLDING: &str = "\
hart 0 at 00010068, running
  holds 00010040
hart 1 at 00010054, running
0   1   line
E-- I-- 00010040
";

/// The machine's state reads so.
fn stands(
    rt: &impl Abort,
    alloc: Global,
    machine: &Machine,
    names: &Names<'_>,
    wanted: &str,
) -> Result<(), Fail> {
    let mut text = String::new(alloc);
    write_state(&mut text, machine, names)?;
    same(rt, text.as_str(), wanted);
    Ok(())
}

/// How the machine stands before its request is ordered, and when its line has come.
fn asks_and_holds(
    rt: &impl Abort,
    alloc: Global,
    machine: &mut Machine,
    names: &Names<'_>,
) -> Result<(), Fail> {
    for _ in 0..6 {
        make(rt, machine, Kind::Step);
    }
    stands(rt, alloc, machine, names, ASKING)?;
    make(rt, machine, Kind::Order);
    make(rt, machine, Kind::Serve);
    stands(rt, alloc, machine, names, HOLDING)
}

#[test]
fn a_state_reads_as_written(rt: HostRuntime) -> Result<(), Fail> {
    let symbols = &Symbols::none(rt.alloc());
    let image = &image(rt.alloc())?;
    let mut machine = machine(&rt, rt.alloc())?;
    asks_and_holds(&rt, rt.alloc(), &mut machine, &Names { symbols, image })
}

fn machine(rt: &impl Abort, alloc: Global) -> Result<Machine, Fail> {
    let image = image(alloc)?;
    assert_eq!(rt; image.harts(), 2);
    let config = Config {
        harts: 2,
        ..Config::usual()
    };
    Ok(Machine::make(alloc, image, config).map_err(|_| "no machine")?)
}

/// An event of hart 0.
fn make(rt: &impl Abort, machine: &mut Machine, kind: Kind) {
    assert!(rt; machine.steps_left() >= 1 && machine.config().harts >= 1);
    machine.step(Event { kind, hart: H0 });
}
