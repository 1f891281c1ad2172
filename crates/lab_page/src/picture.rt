//! The picture of a run.

ghost use Rattle.std.specs.Prelude.{◌<◌, ◌^◌};

use crate::bars::{Bar, together};
use crate::hover::{put_arrow, put_bar, put_section};
use crate::kinds::Kind;
use crate::lanes::{Arrow, arrows, bus_pieces, wait_pieces};
use crate::page::Run;
use crate::pieces::{Piece, piece_of, section_pieces};
use crate::scale::Scale;
use el_base::{HartId, NoMemory};
use elf_symbols::Symbols;
use lab::Try;
use lab_tables::LockKind;
use std::alloc::Global;

/// The most sections that are drawn each by itself.
const MOST_ALONE: usize = 2_000;

/// The most sections that fit into a picture of the least width.
const FEW: usize = 250;

/// Where the lanes begin, in pixels.
const LEFT: u32 = 64;

const TOP: u32 = 24;

/// The height of a lane with the gap below it, of a section, and of a wait.
const LANE: u32 = 44;

const SECTION: u32 = 18;

const WAIT: u32 = 6;

/// How many places of events are told above the lanes.
const TICKS: u32 = 8;

/// Columns, and how many pixels each of them has.
#[derive(Clone, Copy)]
pub(crate) struct Grid {
    pub(crate) scale: Scale,
    pub(crate) step: u32,
}

impl Grid {
    /// So many events over so many pixels, so many to a column.
    fn new(events: u32, pixels: u32, step: u32) -> Grid {
        Grid {
            scale: Scale::new(events, pixels / step.max(1)),
            step,
        }
    }

    /// The pixel at which a column begins.
    fn x(self, column: u32) -> u64 {
        u64::from(LEFT) + u64::from(column) * u64::from(self.step)
    }

    /// How many pixels there are from one column to another, both counted.
    fn width(self, first: u32, last: u32) -> u64 {
        (u64::from(last.saturating_sub(first)) + 1) * u64::from(self.step)
    }
}

/// How a picture is drawn. The numbers of columns bound how long a page gets.
#[derive(Clone, Copy)]
pub(crate) struct Plan {
    /// How many pixels the lanes have.
    pixels: u32,
    pub(crate) sections: Grid,
    /// That of waits and of the bus.
    side: Grid,
    arrows: Grid,
    /// Whether sections of a lane that begin in one column are drawn together.
    pub(crate) is_together: bool,
}

impl Plan {
    /// A plan for so many sections over so many events.
    pub(crate) fn of(sections: usize, events: u32) -> Plan {
        let is_together = sections > MOST_ALONE;
        if is_together || sections <= FEW {
            let step = if is_together { 2 } else { 1 };
            Plan {
                pixels: 1_200,
                sections: Grid::new(events, 1_200, step),
                side: Grid::new(events, 1_200, 2),
                arrows: Grid::new(events, 1_200, 16),
                is_together,
            }
        } else {
            Plan {
                pixels: 2_400,
                sections: Grid::new(events, 2_400, 1),
                side: Grid::new(events, 2_400, 4),
                arrows: Grid::new(events, 2_400, 32),
                is_together,
            }
        }
    }
}

/// The pixel at which the lane of a hart begins; that of the bus is behind those of all harts.
fn lane_top(lane: u8) -> u32
    ensures { result < 2 ^ 16 }
{
    TOP + u32::from(lane) * LANE
}

/// Writes the picture.
pub(crate) fn write_picture(
    alloc: Global,
    out: &mut String,
    run: &Run,
    symbols: &Symbols,
    plan: Plan,
) -> Result<(), NoMemory> {
    let harts = run.config.harts;
    let width = u64::from(LEFT) + u64::from(plan.pixels) + 24;
    let height = lane_top(harts) + LANE;
    write!(
        out,
        "<div class=\"wide\"><svg xmlns=\"http://www.w3.org/2000/svg\" width=\"{width}\" height=\"{height}\" "
    )?;
    writeln!(out, "viewBox=\"0 0 {width} {height}\" role=\"img\">")?;
    out.push_str(
        "<defs><marker id=\"head\" class=\"head\" markerWidth=\"7\" markerHeight=\"6\" refX=\"6\" refY=\"3\" orient=\"auto\">",
    )?;
    out.push_str("<path d=\"M0 0L7 3L0 6z\"/></marker></defs>\n")?;
    put_ticks(out, run.events, plan, height)?;
    put_lanes(out, plan, harts)?;
    put_waits(alloc, out, run, plan)?;
    put_sections(alloc, out, run, symbols, plan)?;
    put_bus(alloc, out, run, plan)?;
    put_arrows(alloc, out, run, plan)?;
    out.push_str("</svg></div>\n")?;
    Ok(())
}

/// Puts the places of some events above the lanes.
fn put_ticks(out: &mut String, events: u32, plan: Plan, height: u32) -> Result<(), NoMemory> {
    let top = TOP - 6;
    for tick in 0..=TICKS {
        let place = u64::from(events) * u64::from(tick) / u64::from(TICKS);
        let x = u64::from(LEFT) + u64::from(plan.pixels) * u64::from(tick) / u64::from(TICKS);
        write!(
            out,
            "<line class=\"tick\" x1=\"{x}\" y1=\"{top}\" x2=\"{x}\" y2=\"{height}\"/>"
        )?;
        writeln!(out, "<text class=\"far\" x=\"{x}\" y=\"12\">{place}</text>")?;
    }
    Ok(())
}

/// Puts the ground of each lane, with its name.
fn put_lanes(out: &mut String, plan: Plan, harts: u8) -> Result<(), NoMemory> {
    let width = plan.pixels;
    for lane in 0..=harts {
        let y = lane_top(lane);
        let line = y + SECTION - 5;
        if lane < harts {
            write!(out, "<text x=\"8\" y=\"{line}\">hart {lane}</text>")?;
        } else {
            write!(out, "<text x=\"8\" y=\"{line}\">bus</text>")?;
        }
        writeln!(
            out,
            "<rect class=\"lane\" x=\"{LEFT}\" y=\"{y}\" width=\"{width}\" height=\"{SECTION}\"/>"
        )?;
    }
    Ok(())
}

/// A bar's place in the picture: the pixel at which it begins, and its height.
#[derive(Clone, Copy)]
struct Row {
    y: u32,
    height: u32,
}

/// Opens a rectangle, up to the text that is shown where it is pointed at.
fn open_rect(
    out: &mut String,
    grid: Grid,
    row: Row,
    kind: Kind,
    first: u32,
    last: u32,
) -> Result<(), NoMemory> {
    let class = kind.class();
    let x = grid.x(first);
    let width = grid.width(first, last);
    let Row { y, height } = row;
    write!(
        out,
        "<rect class=\"{class}\" x=\"{x}\" y=\"{y}\" width=\"{width}\" height=\"{height}\"><title>"
    )?;
    Ok(())
}

fn close_rect(out: &mut String) -> Result<(), NoMemory> {
    out.push_str("</title></rect>\n")?;
    Ok(())
}

/// Puts pieces of a hart, those that begin in one column together.
fn put_together(
    alloc: Global,
    out: &mut String,
    grid: Grid,
    row: Row,
    hart: HartId,
    pieces: &[Piece],
) -> Result<(), NoMemory> {
    let bars = together(alloc, hart, pieces, grid.scale.width)?;
    let mut column = 0;
    for bar in &bars {
        put_one_bar(out, grid, row, column, bar)?;
        column = column.saturating_add(1);
    }
    Ok(())
}

fn put_one_bar(
    out: &mut String,
    grid: Grid,
    row: Row,
    column: u32,
    bar: &Bar,
) -> Result<(), NoMemory> {
    if let Some(kind) = bar.most() {
        open_rect(out, grid, row, kind, column, bar.last)?;
        put_bar(out, bar)?;
        close_rect(out)?;
    }
    Ok(())
}

/// Puts the waits of all harts, those that begin in one column together.
fn put_waits(alloc: Global, out: &mut String, run: &Run, plan: Plan) -> Result<(), NoMemory> {
    let pieces = wait_pieces(alloc, run.facts, plan.side.scale)?;
    for number in 0..run.config.harts.min(8) {
        let row = Row {
            y: lane_top(number) + SECTION + 2,
            height: WAIT,
        };
        put_together(alloc, out, plan.side, row, HartId { number }, &pieces)?;
    }
    Ok(())
}

/// Puts what the bus did, that of one column together.
fn put_bus(alloc: Global, out: &mut String, run: &Run, plan: Plan) -> Result<(), NoMemory> {
    let pieces = bus_pieces(alloc, run.facts, plan.side.scale)?;
    let row = Row {
        y: lane_top(run.config.harts),
        height: SECTION,
    };
    put_together(alloc, out, plan.side, row, HartId { number: 0 }, &pieces)
}

/// Puts the sections of all harts.
fn put_sections(
    alloc: Global,
    out: &mut String,
    run: &Run,
    symbols: &Symbols,
    plan: Plan,
) -> Result<(), NoMemory> {
    if plan.is_together {
        return put_many(alloc, out, run, plan);
    }
    for begun in run.takes {
        put_alone(alloc, out, symbols, plan, LockKind::Take, begun)?;
    }
    for begun in run.releases {
        put_alone(alloc, out, symbols, plan, LockKind::Release, begun)?;
    }
    Ok(())
}

/// Puts a section by itself.
fn put_alone(
    alloc: Global,
    out: &mut String,
    symbols: &Symbols,
    plan: Plan,
    what: LockKind,
    begun: &Try,
) -> Result<(), NoMemory> {
    let piece = piece_of(what, plan.sections.scale, begun);
    let row = section_row(piece.hart);
    open_rect(out, plan.sections, row, piece.kind, piece.first, piece.last)?;
    put_section(alloc, out, symbols, begun)?;
    close_rect(out)
}

fn section_row(hart: HartId) -> Row {
    Row {
        y: lane_top(hart.number),
        height: SECTION,
    }
}

/// Puts many sections, those of a hart that begin in one column together.
fn put_many(alloc: Global, out: &mut String, run: &Run, plan: Plan) -> Result<(), NoMemory> {
    let mut pieces = section_pieces(alloc, LockKind::Take, run.takes, plan.sections.scale)?;
    let releases = section_pieces(alloc, LockKind::Release, run.releases, plan.sections.scale)?;
    pieces.extend_from_slice(&releases)?;
    for number in 0..run.config.harts.min(8) {
        let hart = HartId { number };
        put_together(alloc, out, plan.sections, section_row(hart), hart, &pieces)?;
    }
    Ok(())
}

/// Puts an arrow for each loss, from the winner's lane to the loser's; those of one column to one winner are one.
fn put_arrows(alloc: Global, out: &mut String, run: &Run, plan: Plan) -> Result<(), NoMemory> {
    for arrow in &arrows(alloc, run.facts, plan.arrows.scale)? {
        put_one_arrow(out, plan.arrows, arrow)?;
    }
    Ok(())
}

fn put_one_arrow(out: &mut String, grid: Grid, arrow: &Arrow) -> Result<(), NoMemory> {
    let x = grid
        .x(arrow.column)
        .saturating_add(u64::from(grid.step / 2));
    let from = lane_top(arrow.winner.number) + SECTION / 2;
    let to = lane_top(arrow.loser.number) + SECTION / 2;
    write!(
        out,
        "<line class=\"arrow\" x1=\"{x}\" y1=\"{from}\" x2=\"{x}\" y2=\"{to}\" marker-end=\"url(#head)\"><title>"
    )?;
    put_arrow(out, arrow)?;
    out.push_str("</title></line>\n")?;
    Ok(())
}
