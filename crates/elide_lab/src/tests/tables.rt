//! The numbers and the texts are worked by hand.
use crate::tests::asserts::same;
use chronicle::Tally;
use el_base::{Cause, HartId, LineAddr, Need, NoMemory};
use elf_symbols::Symbols;
use lab::{Acquire, Ended, Fact, LineFact, NotElided, PlainSwap, Try};
use lab_tables::*;
use lab_words::Layout;
use std::alloc::Global;
use std::test::Fail;
use trace_file::read_trace;

const FIRST: HartId = HartId { number: 0 };

const SECOND: HartId = HartId { number: 1 };

const LOCK: Acquire = Acquire {
    pc: 0x1_01c0,
    word: 0x1_0540,
};

const OTHER: Acquire = Acquire {
    pc: 0x1_01d0,
    word: 0x1_0540,
};

const LINE: LineAddr = LineAddr { number: 1045 };

fn section(hart: HartId, acquire: Acquire, first: u32, ended: Ended) -> Try {
    Try {
        hart,
        acquire,
        old: 0,
        new: 1,
        first,
        ended,
    }
}

/// Two sections of one acquire, of which the second is lost to the first one's hart, and one of another acquire.
fn tries() -> [Try; 3] {
    [
        section(FIRST, LOCK, 0, Ended::Committed { at: 9, count: 5 }),
        section(
            SECOND,
            LOCK,
            2,
            Ended::LostTo {
                at: 7,
                ran: 3,
                winner: FIRST,
                line: Some(LINE),
            },
        ),
        section(
            SECOND,
            OTHER,
            10,
            Ended::RolledBack {
                at: 12,
                ran: 2,
                cause: Cause::Room,
            },
        ),
    ]
}

const SWAPS: [PlainSwap; 1] = [PlainSwap {
    place: 13,
    hart: SECOND,
    acquire: OTHER,
    old: 0,
    new: 1,
    why: NotElided::Fallback,
}];

fn fact(place: u32, what: LineFact) -> Fact {
    Fact {
        place,
        line: Some(LINE),
        what,
    }
}

fn facts() -> [Fact; 4] {
    [
        fact(
            1,
            LineFact::Missed {
                hart: FIRST,
                need: Need::Write,
            },
        ),
        fact(
            7,
            LineFact::Lost {
                winner: FIRST,
                loser: SECOND,
            },
        ),
        fact(
            8,
            LineFact::Served {
                hart: FIRST,
                need: Need::Write,
            },
        ),
        fact(
            8,
            LineFact::Owner {
                from: None,
                to: Some(FIRST),
            },
        ),
    ]
}

/// What `lock_rows` makes of the sections and the swap.
fn wanted_locks() -> [LockRow; 2] {
    let mut lock = LockRow {
        acquire: LOCK,
        sections: Tally {
            began: 2,
            committed: 1,
            instr: 5,
            conflict: 1,
            ..Tally::default()
        },
        in_vain: 3,
        ..LockRow::nothing()
    };
    lock.lost_to[0] = 1;
    let mut other = LockRow {
        acquire: OTHER,
        sections: Tally {
            began: 1,
            room: 1,
            ..Tally::default()
        },
        in_vain: 2,
        ..LockRow::nothing()
    };
    other.plain.fallback = 1;
    [lock, other]
}

#[test]
fn each_acquire_has_a_row(rt: HostRuntime) -> Result<(), Fail> {
    let rows = lock_rows(rt.alloc(), LockKind::Take, &tries(), &SWAPS)?;
    same(&rt, rows.as_slice(), wanted_locks().as_slice());
    Ok(())
}

#[test]
fn each_line_has_a_row(rt: HostRuntime) -> Result<(), Fail> {
    let mut wanted = LineRow {
        line: LINE,
        missed_writes: 1,
        served: 1,
        owners: 1,
        ..LineRow::nothing()
    };
    wanted.beats[0][1] = 1;
    let rows = line_rows(rt.alloc(), &facts())?;
    same(&rt, rows.as_slice(), [wanted].as_slice());
    Ok(())
}

const LOCKS: [(Layout, &str); 3] = [
    (
        Layout::Text,
        "swap  pc        word      began  committed  instr  conflict  room  in_vain  fallback  lost_to
take  000101c0  00010540      2          1      5         1     0        3         0  hart 0 once
take  000101d0  00010540      1          0      0         0     1        2         1
",
    ),
    (
        Layout::Json,
        r#"{"swap":"take","pc":"000101c0","word":"00010540","began":2,"committed":1,"instr":5,"conflict":1,"room":0,"lines":0,"long":0,"call":0,"mixed":0,"in_vain":3,"plain_mode":0,"fallback":0,"confidence":0,"no_candidate":0,"lost_to":[{"hart":0,"times":1}]}
{"swap":"take","pc":"000101d0","word":"00010540","began":1,"committed":0,"instr":0,"conflict":0,"room":1,"lines":0,"long":0,"call":0,"mixed":0,"in_vain":2,"plain_mode":0,"fallback":1,"confidence":0,"no_candidate":0,"lost_to":[]}
"#,
    ),
    (
        Layout::Csv,
        "swap,pc,word,began,committed,instr,conflict,room,lines,long,call,mixed,in_vain,plain_mode,fallback,confidence,no_candidate,lost_to\r
take,000101c0,00010540,2,1,5,1,0,0,0,0,0,3,0,0,0,0,hart 0 once\r
take,000101d0,00010540,1,0,0,0,1,0,0,0,0,2,0,1,0,0,\r
",
    ),
];

#[test]
fn locks_are_laid_out(rt: HostRuntime) -> Result<(), Fail> {
    let alloc = rt.alloc();
    let symbols = Symbols::none(alloc);
    for (layout, text) in &LOCKS {
        let mut out = String::new(alloc);
        write_table(alloc, &mut out, &wanted_locks(), &symbols, *layout)?;
        same(&rt, out.as_str(), *text);
    }
    Ok(())
}

const LINES: [(Layout, &str); 3] = [
    (
        Layout::Text,
        "line      missed_reads  owners  written_back  losses
00010540             3       1             2  hart 0 beat hart 1 2 times, hart 2 beat hart 5 31 times
",
    ),
    (
        Layout::Json,
        r#"{"line":"00010540","missed_reads":3,"missed_writes":0,"served":0,"owners":1,"written_back":2,"losses":[{"winner":0,"loser":1,"times":2},{"winner":2,"loser":5,"times":31}]}
"#,
    ),
    (
        Layout::Csv,
        "line,missed_reads,missed_writes,served,owners,written_back,losses\r
00010540,3,0,0,1,2,\"hart 0 beat hart 1 2 times, hart 2 beat hart 5 31 times\"\r
",
    ),
];

#[test]
fn lines_are_laid_out(rt: HostRuntime) -> Result<(), Fail> {
    let alloc = rt.alloc();
    let symbols = Symbols::none(alloc);
    let mut row = LineRow {
        line: LINE,
        missed_reads: 3,
        owners: 1,
        written_back: 2,
        ..LineRow::nothing()
    };
    row.beats[0][1] = 2;
    row.beats[2][5] = 31;
    for (layout, text) in &LINES {
        let mut out = String::new(alloc);
        write_table(alloc, &mut out, &[row], &symbols, *layout)?;
        same(&rt, out.as_str(), *text);
    }
    Ok(())
}

/// Texts with what a form marks, as they stand in JSON and in comma-separated values.
const MARKED: [(&str, &str, &str); 5] = [
    ("<lock>", r#""<lock>""#, "<lock>"),
    (r#"a"b"#, r#""a\"b""#, r#""a""b""#),
    (r"a\b", r#""a\\b""#, r"a\b"),
    ("a,b", r#""a,b""#, r#""a,b""#),
    ("a\nb", r#""a\u000ab""#, "\"a\nb\""),
];

/// A row of one word.
#[derive(Clone, Copy)]
struct OfOneWord {
    word: &'static str,
}

impl Row for OfOneWord {
    fn nothing() -> OfOneWord {
        OfOneWord { word: "" }
    }

    fn columns(&self, alloc: Global) -> Result<Vec<Column>, NoMemory> {
        let mut columns = Vec::new(alloc);
        columns.push(Column {
            name: "word",
            cell: Cell::Word(self.word),
        })?;
        Ok(columns)
    }
}

#[test]
fn marks_are_escaped(rt: HostRuntime) -> Result<(), Fail> {
    let alloc = rt.alloc();
    for (word, json, csv) in &MARKED {
        let word = OfOneWord { word: *word };
        let mut out = String::new(alloc);
        for layout in [Layout::Json, Layout::Csv] {
            write_table(alloc, &mut out, &[word], &Symbols::none(alloc), layout)?;
        }
        let wanted = format!(in alloc; "{{\"word\":{json}}}\nword\r\n{csv}\r\n")?;
        same(&rt, out.as_str(), wanted.as_str());
    }
    Ok(())
}

/// A trace of version 2: one hart runs an instruction, and its other events have nothing to do.
const TRACE: [u8; 30] = [
    0x45, 0x4c, 0x54, 0x52, 0x02, 0x01, 0x02, 0x10, 0x04, 0x10, 0xd0, 0x07, 0x00, 0x00, 0x00, 0x09,
    0x3d, 0x00, 0x04, 0x00, 0x00, 0x00, 0x00, 0x04, 0x10, 0x00, 0x20, 0x00, 0x30, 0x00,
];

const INFO: &str = "version 2
mode tlr
harts 1
sets 16
ways 4
lines 16
long 2000
steps 4000000
events 4
idle 3
ran 1
";

#[test]
fn a_trace_says_what_it_is(rt: HostRuntime) -> Result<(), Fail> {
    let trace = read_trace(rt.alloc(), &TRACE).map_err(|_| "no trace")?;
    let mut out = String::new(rt.alloc());
    write_info(&mut out, &trace)?;
    same(&rt, out.as_str(), INFO);
    Ok(())
}
