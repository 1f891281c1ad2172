//! Items in words.

use crate::items::Item;
use crate::words::{bytes, cause_word, first_byte, instructions, letter_word, need_word, why_word};
use bus_order::Request;
use elf_symbols::Symbols;
use lab_names::Named;
use mail::Message;
use rv_text::abi_name;
use rv_word::Reg;
use std::fmt;

/// An item that writes itself in words: `hart 2 let go, 5 instructions`. By this project's profile.
#[derive(Clone, Copy)]
pub struct Phrase<'a> {
    pub item: Item,
    /// What addresses are shown with.
    pub symbols: &'a Symbols,
}

impl fmt::Display for Phrase<'_> {
    fn fmt<W: fmt::Write>(&self, f: &mut fmt::Formatter<W>) -> fmt::Result {
        match self.item {
            Item::Began { .. }
            | Item::Private
            | Item::Committed { .. }
            | Item::RolledBack { .. }
            | Item::Armed
            | Item::LetGo { .. } => write_section(f, self.item, self.symbols),
            Item::Read { .. } | Item::Stored { .. } | Item::Appended { .. } => {
                write_access(f, self.item, self.symbols)
            }
            Item::Register { .. }
            | Item::Went { .. }
            | Item::Exited { .. }
            | Item::Trapped { .. } => write_change(f, self.item, self.symbols),
            _ => write_bus(f, self.item, self.symbols),
        }
    }
}

fn write_section<W: fmt::Write>(
    f: &mut fmt::Formatter<W>,
    item: Item,
    symbols: &Symbols,
) -> fmt::Result {
    match item {
        Item::Began { word, old, new } => {
            let lock = Named {
                address: word,
                symbols,
            };
            write!(f, "begun on {lock}, {old} to {new}")
        }
        Item::Private => f.write_str("kept in its section"),
        Item::Committed { word, count } => {
            let lock = Named {
                address: word,
                symbols,
            };
            let instructions = instructions(count);
            write!(f, "committed {instructions} on {lock}")
        }
        Item::RolledBack { word, cause } => {
            let lock = Named {
                address: word,
                symbols,
            };
            let cause = cause_word(cause);
            write!(f, "rolled back on {lock}, {cause}")
        }
        Item::Armed => f.write_str("armed"),
        Item::LetGo { count } => {
            let instructions = instructions(count);
            write!(f, "let go {instructions}")
        }
        _ => Ok(()),
    }
}

fn write_access<W: fmt::Write>(
    f: &mut fmt::Formatter<W>,
    item: Item,
    symbols: &Symbols,
) -> fmt::Result {
    match item {
        Item::Read {
            address,
            len,
            value,
        } => {
            let from = Named { address, symbols };
            let bytes = bytes(len);
            write!(f, "read {bytes} at {from}")?;
            write_value(f, value)
        }
        Item::Stored {
            address,
            len,
            value,
        } => {
            let to = Named { address, symbols };
            let bytes = bytes(len);
            write!(f, "stored {bytes} at {to}")?;
            write_value(f, value)
        }
        Item::Appended { address, len } => {
            let from = Named { address, symbols };
            let bytes = bytes(len);
            write!(f, "wrote {bytes} at {from} to the output")
        }
        _ => Ok(()),
    }
}

fn write_value<W: fmt::Write>(f: &mut fmt::Formatter<W>, value: Option<u32>) -> fmt::Result {
    match value {
        Some(value) => write!(f, " = 0x{value:x}"),
        None => Ok(()),
    }
}

/// What is another of what the hart sees.
fn write_change<W: fmt::Write>(
    f: &mut fmt::Formatter<W>,
    item: Item,
    symbols: &Symbols,
) -> fmt::Result {
    match item {
        Item::Register { index, value } => {
            let name = register_name(index);
            write!(f, "{name} = 0x{value:x}")
        }
        Item::Went { to } => {
            let to = Named {
                address: to,
                symbols,
            };
            write!(f, "goes to {to}")
        }
        Item::Exited { code } => write!(f, "exit {code}"),
        Item::Trapped { cause } => write!(f, "trap {cause}"),
        _ => Ok(()),
    }
}

/// The ABI name of the register of a number.
pub(crate) fn register_name(index: u8) -> &'static str {
    match Reg::new(index) {
        Some(reg) => abi_name(reg),
        None => "",
    }
}

/// What happened at the bus.
fn write_bus<W: fmt::Write>(
    f: &mut fmt::Formatter<W>,
    item: Item,
    symbols: &Symbols,
) -> fmt::Result {
    match item {
        Item::Missed { line, need } => {
            let need = need_word(need);
            let line = Named {
                address: first_byte(line),
                symbols,
            };
            write!(f, "missed {need} {line}")
        }
        Item::Stalled => f.write_str("waits"),
        Item::Asked { request } => {
            let request = RequestText { request, symbols };
            write!(f, "{request}")
        }
        Item::At { place } => write!(f, "place {place}"),
        Item::Turned { hart, from, to } => {
            let hart = hart.number;
            let from = letter_word(from);
            let to = letter_word(to);
            write!(f, "hart {hart} {from} to {to}")
        }
        Item::Took { message } => {
            let message = MessageText { message };
            write!(f, "{message}")
        }
        Item::About { request } => {
            let request = RequestText { request, symbols };
            write!(f, "for {request}")
        }
        Item::Blocked { why, by } => {
            let why = why_word(why);
            let by = by.number;
            write!(f, "blocked, {why} hart {by}")
        }
        Item::Lost { loser, winner } => {
            let loser = loser.number;
            let winner = winner.number;
            write!(f, "hart {loser} lost to hart {winner}")
        }
        Item::Freed { hart, count } => {
            let hart = hart.number;
            let instructions = instructions(count.into());
            write!(f, "hart {hart} let go, {instructions}")
        }
        _ => Ok(()),
    }
}

/// A request in words: need, line, and the clock of the stamp where it has one.
#[derive(Clone, Copy)]
pub(crate) struct RequestText<'a> {
    pub(crate) request: Request,
    pub(crate) symbols: &'a Symbols,
}

impl fmt::Display for RequestText<'_> {
    fn fmt<W: fmt::Write>(&self, f: &mut fmt::Formatter<W>) -> fmt::Result {
        let need = need_word(self.request.need);
        let line = Named {
            address: first_byte(self.request.line),
            symbols: self.symbols,
        };
        write!(f, "{need} {line}")?;
        match self.request.stamp {
            Some(stamp) => {
                let clock = stamp.clock;
                write!(f, ", stamp {clock}")
            }
            None => Ok(()),
        }
    }
}

/// A message in words.
#[derive(Clone, Copy)]
pub(crate) struct MessageText {
    pub(crate) message: Message,
}

impl fmt::Display for MessageText {
    fn fmt<W: fmt::Write>(&self, f: &mut fmt::Formatter<W>) -> fmt::Result {
        match self.message {
            Message::Marker { from } => {
                let from = from.number;
                write!(f, "marker from hart {from}")
            }
            Message::Probe { origin } => {
                let origin = origin.number;
                write!(f, "probe of hart {origin}")
            }
        }
    }
}
