//! The columns and the markup are worked by hand.
use crate::tests::asserts::same;
use el_base::{Cause, Config, HartId, LineAddr, Mode, Need};
use elf_symbols::Symbols;
use lab::{Acquire, Ended, Fact, LineFact, Try};
use lab_page::*;
use lab_tables::LockKind;
use std::test::Fail;

const FIRST: HartId = HartId { number: 0 };

const SECOND: HartId = HartId { number: 1 };

const LOCK: Acquire = Acquire {
    pc: 0x1_01c0,
    word: 0x1_0540,
};

const LINE: LineAddr = LineAddr { number: 1045 };

/// So many events over so many columns, a place, and its column.
const COLUMNS: [(u32, u32, u32, u32); 8] = [
    (100, 10, 0, 0),
    (100, 10, 9, 0),
    (100, 10, 10, 1),
    (100, 10, 99, 9),
    (100, 10, 100, 9),
    (3, 1200, 1, 400),
    (16_777_216, 600, 16_777_215, 599),
    (0, 600, 0, 0),
];

#[test]
fn places_have_columns(rt: HostRuntime) -> Result<(), Fail> {
    for (events, width, place, column) in &COLUMNS {
        let scale = Scale::new(*events, *width);
        same(&rt, scale.column(*place), *column);
    }
    Ok(())
}

fn section(hart: HartId, first: u32, ended: Ended) -> Try {
    Try {
        hart,
        acquire: LOCK,
        old: 0,
        new: 1,
        first,
        ended,
    }
}

/// Of 1,200 events: two sections of hart 0, and one of hart 1 that is lost to it.
fn sections() -> [Try; 3] {
    let lost = Ended::LostTo {
        at: 70,
        ran: 3,
        winner: FIRST,
        line: Some(LINE),
    };
    [
        section(FIRST, 20, Ended::Committed { at: 99, count: 5 }),
        section(SECOND, 30, lost),
        section(
            FIRST,
            102,
            Ended::RolledBack {
                at: 300,
                ran: 2,
                cause: Cause::Room,
            },
        ),
    ]
}

/// Over twelve columns, the first two sections begin in column 0, and the third one in column 1.
#[test]
fn sections_of_one_column_are_one_bar(rt: HostRuntime) -> Result<(), Fail> {
    let alloc = rt.alloc();
    let scale = Scale::new(1_200, 12);
    let pieces = section_pieces(alloc, LockKind::Take, &sections(), scale)?;
    let bars = together(alloc, FIRST, &pieces, scale.width)?;
    let mut shown = Vec::new(alloc);
    for bar in &bars {
        shown.push((bar.last, bar.counts[0], bar.counts[2], bar.counts[3]))?;
    }
    assert_eq!(rt; shown.len(), 12);
    same(
        &rt,
        &shown[..3],
        [(0, 1, 0, 0), (3, 0, 0, 1), (0, 0, 0, 0)].as_slice(),
    );
    let bars = together(alloc, SECOND, &pieces, scale.width)?;
    assert_eq!(rt; bars.len(), 12);
    same(&rt, bars[0].counts[Kind::Lost.number()], 1);
    Ok(())
}

fn facts() -> [Fact; 3] {
    let hart = SECOND;
    let need = Need::Write;
    let line = Some(LINE);
    let what = |place, what| Fact { place, line, what };
    [
        what(40, LineFact::Missed { hart, need }),
        what(
            70,
            LineFact::Lost {
                winner: FIRST,
                loser: SECOND,
            },
        ),
        what(80, LineFact::Served { hart, need }),
    ]
}

/// Lines of the page of these sections and facts: the title, in which what XML gives a meaning is spelled and what it has
/// not is left out, the last pixels, the lanes, each section, the wait, what was served, and
/// the loss, which lies in the arrows' column 4, of sixteen.
const PAGE: [&str; 9] = [
    "<title>a &lt;b+4&gt; &amp; &quot;c&quot; 'é</title>",
    "width=\"1288\" height=\"156\" viewBox=\"0 0 1288 156\"",
    "<text x=\"8\" y=\"81\">hart 1</text><rect class=\"lane\" x=\"64\" y=\"68\" width=\"1200\" height=\"18\"/>",
    "<rect class=\"committed\" x=\"84\" y=\"24\" width=\"80\" height=\"18\"><title>hart 0 at 000101c0, lock word 00010540, from event 20 to 99: committed with 5 instructions</title></rect>",
    "<rect class=\"lost\" x=\"94\" y=\"68\" width=\"41\" height=\"18\"><title>hart 1 at 000101c0, lock word 00010540, from event 30 to 70: lost to hart 0 after 3 instructions, over line 00010540</title></rect>",
    "<rect class=\"room\" x=\"166\" y=\"24\" width=\"199\" height=\"18\"><title>hart 0 at 000101c0, lock word 00010540, from event 102 to 300: rolled back after 2 instructions: no room in the cache</title></rect>",
    "<rect class=\"waited\" x=\"104\" y=\"88\" width=\"42\" height=\"6\"><title>1 waited for a line</title></rect>",
    "<rect class=\"served\" x=\"144\" y=\"112\" width=\"2\" height=\"18\"><title>1 served</title></rect>",
    "<line class=\"arrow\" x1=\"136\" y1=\"33\" x2=\"136\" y2=\"77\" marker-end=\"url(#head)\"><title>hart 0 beat hart 1</title></line>",
];

#[test]
fn a_page_has_each_section(rt: HostRuntime) -> Result<(), Fail> {
    let alloc = rt.alloc();
    let mut out = String::new(alloc);
    let run = Run {
        title: "a <b+4> & \"c\" \u{1}'é",
        config: Config {
            harts: 2,
            mode: Mode::Tlr,
            ..Config::usual()
        },
        events: 1_200,
        takes: &sections(),
        releases: &[],
        swaps: &[],
        facts: &facts(),
    };
    write_page(alloc, &mut out, &run, &Symbols::none(alloc))?;
    for line in &PAGE {
        assert!(rt; out.contains(*line), "{line}");
    }
    Ok(())
}
