//! What an event did, as a line of text.

use crate::items::{Item, tell};
use crate::names::Names;
use crate::phrases::Phrase;
use crate::words::kind_word;
use arrayvec::ArrayVec;
use el_base::{Losers, NoMemory, Outcome};
use elf_symbols::Symbols;
use lab::{Shown, What};
use lab_names::Named;
use rv_text::Text;

/// What an item is told with: items of one group stand behind one another with a comma, and groups with a semicolon.
#[derive(Clone, Copy, PartialEq, Eq)]
enum Group {
    /// What the event was about.
    Head,
    Section,
    Access,
    View,
    Bus,
    Losses,
}

/// Puts what an event did behind a text, as a line: its number, its hart and its kind, what it was about, and behind a colon
/// what came of it.
pub fn write_event(out: &mut String, shown: &Shown, names: &Names) -> Result<(), NoMemory> {
    let place = shown.place;
    let hart = shown.event.hart.number;
    let kind = kind_word(shown.event.kind);
    write!(out, "{place} hart {hart} {kind}")?;
    write_instruction(out, shown, names)?;
    let mut items = ArrayVec::new();
    tell(&mut items, shown);
    write_items(out, &items, names.symbols)?;
    write_nothing(out, shown.outcome)?;
    out.push('\n')?;
    Ok(())
}

/// Of a step, where the hart stands and the instruction there.
fn write_instruction(out: &mut String, shown: &Shown, names: &Names) -> Result<(), NoMemory> {
    match &shown.what {
        What::Step { before, .. } => write_pc(out, before.view.pc, names),
        _ => Ok(()),
    }
}

fn write_pc(out: &mut String, pc: u32, names: &Names) -> Result<(), NoMemory> {
    let at = Named {
        address: pc,
        symbols: names.symbols,
    };
    write!(out, " {at}")?;
    if let Some(word) = names.image.code_word(pc) {
        let text = Text { word, address: pc };
        write!(out, " {text}")?;
    }
    Ok(())
}

fn write_items(out: &mut String, items: &[Item], symbols: &Symbols) -> Result<(), NoMemory> {
    let mut last = Group::Head;
    for item in items {
        let group = group_of(*item);
        out.push_str(separator(last, group))?;
        let phrase = Phrase {
            item: *item,
            symbols,
        };
        write!(out, "{phrase}")?;
        last = group;
    }
    Ok(())
}

/// Where an event had nothing to do, or a message led to nothing, this is said.
fn write_nothing(out: &mut String, outcome: Outcome) -> Result<(), NoMemory> {
    match outcome {
        Outcome::Idle => out.push_str(": nothing to do")?,
        Outcome::Delivered { losers } => write_no_loss(out, losers)?,
        _ => (),
    }
    Ok(())
}

fn write_no_loss(out: &mut String, losers: Losers) -> Result<(), NoMemory> {
    if losers == Losers::none() {
        out.push_str(": no loss")?;
    }
    Ok(())
}

/// What stands before an item of a group, by the group of the one before it.
fn separator(last: Group, group: Group) -> &'static str {
    match (last, group) {
        (_, Group::Head) => " ",
        (Group::Head, _) => ": ",
        (last, group) if last == group => ", ",
        _ => "; ",
    }
}

fn group_of(item: Item) -> Group {
    match item {
        Item::Asked { .. } | Item::Took { .. } | Item::About { .. } => Group::Head,
        Item::Began { .. }
        | Item::Private
        | Item::Committed { .. }
        | Item::RolledBack { .. }
        | Item::Armed
        | Item::LetGo { .. } => Group::Section,
        Item::Read { .. } | Item::Stored { .. } | Item::Appended { .. } => Group::Access,
        Item::Register { .. } | Item::Went { .. } | Item::Exited { .. } | Item::Trapped { .. } => {
            Group::View
        }
        Item::Missed { .. }
        | Item::Stalled
        | Item::At { .. }
        | Item::Turned { .. }
        | Item::Blocked { .. } => { Group::Bus }
        Item::Lost { .. } | Item::Freed { .. } => Group::Losses,
    }
}
