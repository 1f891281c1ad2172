//! The columns of the tables of `locks` and `lines`.

use crate::cells::{Cell, Column, Row};
use crate::lines::LineRow;
use crate::locks::{LockKind, LockRow, PlainRuns};
use chronicle::Tally;
use el_base::{LINE_BYTES, LineAddr, MAX_HARTS, NoMemory};
use lab::Acquire;
use std::alloc::Global;

impl LockKind {
    /// The word of the kind in a table.
    fn word(self) -> &'static str {
        match self {
            LockKind::Take => "take",
            LockKind::Release => "release",
        }
    }
}

impl Row for LockRow {
    fn nothing() -> LockRow {
        LockRow {
            kind: LockKind::Take,
            acquire: Acquire { pc: 0, word: 0 },
            sections: Tally::default(),
            lost_to: [0; MAX_HARTS as usize],
            in_vain: 0,
            plain: PlainRuns {
                plain_mode: 0,
                fallback: 0,
                confidence: 0,
                no_candidate: 0,
            },
        }
    }

    fn columns(&self, alloc: Global) -> Result<Vec<Column>, NoMemory> {
        let Tally {
            began,
            committed,
            instr,
            conflict,
            room,
            lines,
            long,
            call,
            mixed,
            ..
        } = self.sections;
        let swap = Cell::Word(self.kind.word());
        let columns = vec![in alloc;
            Column {
                name: "swap",
                cell: swap
            },
            Column {
                name: "pc",
                cell: Cell::Address(self.acquire.pc)
            },
            Column {
                name: "word",
                cell: Cell::Address(self.acquire.word)
            },
            Column::number("began", began),
            Column::number("committed", committed),
            Column::number("instr", instr),
            Column::number("conflict", conflict),
            Column::number("room", room),
            Column::number("lines", lines),
            Column::number("long", long),
            Column::number("call", call),
            Column::number("mixed", mixed),
            Column::number("in_vain", self.in_vain),
            Column::number("plain_mode", self.plain.plain_mode),
            Column::number("fallback", self.plain.fallback),
            Column::number("confidence", self.plain.confidence),
            Column::number("no_candidate", self.plain.no_candidate),
            Column {
                name: "lost_to",
                cell: Cell::LostTo(self.lost_to)
            },
        ]?;
        Ok(columns)
    }
}

impl Row for LineRow {
    fn nothing() -> LineRow {
        LineRow {
            line: LineAddr { number: 0 },
            missed_reads: 0,
            missed_writes: 0,
            served: 0,
            owners: 0,
            written_back: 0,
            beats: [[0; MAX_HARTS as usize]; MAX_HARTS as usize],
        }
    }

    fn columns(&self, alloc: Global) -> Result<Vec<Column>, NoMemory> {
        let address = self.line.number * LINE_BYTES;
        let columns = vec![in alloc;
            Column {
                name: "line",
                cell: Cell::Address(address)
            },
            Column::number("missed_reads", self.missed_reads),
            Column::number("missed_writes", self.missed_writes),
            Column::number("served", self.served),
            Column::number("owners", self.owners),
            Column::number("written_back", self.written_back),
            Column {
                name: "losses",
                cell: Cell::Beats(self.beats)
            },
        ]?;
        Ok(columns)
    }
}
