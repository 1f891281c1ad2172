//! What an event did, as an object of JSON (RFC 8259).

use crate::items::{Item, tell};
use crate::names::Names;
use crate::phrases::register_name;
use crate::words::{cause_word, first_byte, kind_word, letter_word, need_word};
use arrayvec::ArrayVec;
use bus_order::Request;
use el_base::{HartId, NoMemory, Why};
use elf_symbols::Symbols;
use lab::{Shown, What};
use lab_names::spot_of;
use mail::Message;
use rv_text::Text;
use std::fmt;

/// Puts what an event did behind a text, as an object of JSON on a line: the place, the hart and the kind of the event, of a
/// step the pc and the instruction, and a list of what it did. An address is an object with the number, and the name and the
/// offset of its nearest symbol.
pub fn write_event_json(out: &mut String, shown: &Shown, names: &Names) -> Result<(), NoMemory> {
    let place = shown.place;
    let hart = shown.event.hart.number;
    let kind = kind_word(shown.event.kind);
    write!(
        out,
        "{{\"event\":{place},\"hart\":{hart},\"kind\":\"{kind}\""
    )?;
    if let What::Step { before, .. } = &shown.what {
        write_pc(out, before.view.pc, names)?;
    }
    out.push_str(",\"did\":[")?;
    let mut items = ArrayVec::new();
    tell(&mut items, shown);
    write_items(out, &items, names.symbols)?;
    out.push_str("]}\n")?;
    Ok(())
}

fn write_pc(out: &mut String, pc: u32, names: &Names) -> Result<(), NoMemory> {
    let at = At {
        address: pc,
        symbols: names.symbols,
    };
    write!(out, ",\"pc\":{at}")?;
    if let Some(word) = names.image.code_word(pc) {
        let text = Text { word, address: pc };
        write!(out, ",\"insn\":\"{text}\"")?;
    }
    Ok(())
}

fn write_items(out: &mut String, items: &[Item], symbols: &Symbols) -> Result<(), NoMemory> {
    let mut separator = "";
    for item in items {
        let member = Member {
            item: *item,
            symbols,
        };
        write!(out, "{separator}{member}")?;
        separator = ",";
    }
    Ok(())
}

/// An address with its nearest symbol, if there is one.
#[derive(Clone, Copy)]
struct At<'a> {
    address: u32,
    symbols: &'a Symbols,
}

impl fmt::Display for At<'_> {
    fn fmt<W: fmt::Write>(&self, f: &mut fmt::Formatter<W>) -> fmt::Result {
        let address = self.address;
        write!(f, "{{\"at\":{address}")?;
        if let Some(spot) = spot_of(self.symbols, address) {
            let offset = spot.offset;
            f.write_str(",\"name\":\"")?;
            write_escaped(f, self.symbols.name(spot.symbol))?;
            write!(f, "\",\"offset\":{offset}")?;
        }
        f.write_str("}")
    }
}

/// Printable ASCII as it stands between the quotation marks of a string: a quotation mark and a backslash behind a backslash
/// (RFC 8259, 7).
fn write_escaped<W: fmt::Write>(f: &mut fmt::Formatter<W>, text: &str) -> fmt::Result {
    for letter in text.chars() {
        if letter == '"' || letter == '\\' {
            f.write_char('\\')?;
        }
        f.write_char(letter)?;
    }
    Ok(())
}

/// A number, or `null`.
#[derive(Clone, Copy)]
struct Known(Option<u32>);

impl fmt::Display for Known {
    fn fmt<W: fmt::Write>(&self, f: &mut fmt::Formatter<W>) -> fmt::Result {
        match self.0 {
            Some(number) => write!(f, "{number}"),
            None => f.write_str("null"),
        }
    }
}

/// An item that writes itself as an object of JSON (RFC 8259), of which `is` says what it is:
/// `{"is":"freed","hart":2,"count":5}`. By this project's profile.
#[derive(Clone, Copy)]
pub struct Member<'a> {
    pub item: Item,
    /// What addresses are shown with.
    pub symbols: &'a Symbols,
}

impl fmt::Display for Member<'_> {
    fn fmt<W: fmt::Write>(&self, f: &mut fmt::Formatter<W>) -> fmt::Result {
        match self.item {
            Item::Began { .. }
            | Item::Private
            | Item::Committed { .. }
            | Item::RolledBack { .. }
            | Item::Armed
            | Item::LetGo { .. } => write_section(f, self.item, self.symbols),
            Item::Read { .. } | Item::Stored { .. } | Item::Appended { .. } => {
                write_access(f, self.item, self.symbols)
            }
            Item::Register { .. }
            | Item::Went { .. }
            | Item::Exited { .. }
            | Item::Trapped { .. } => write_change(f, self.item, self.symbols),
            _ => write_bus(f, self.item, self.symbols),
        }
    }
}

fn write_section<W: fmt::Write>(
    f: &mut fmt::Formatter<W>,
    item: Item,
    symbols: &Symbols,
) -> fmt::Result {
    match item {
        Item::Began { word, old, new } => {
            let lock = At {
                address: word,
                symbols,
            };
            write!(
                f,
                "{{\"is\":\"began\",\"lock\":{lock},\"old\":{old},\"new\":{new}}}"
            )
        }
        Item::Private => f.write_str("{\"is\":\"private\"}"),
        Item::Committed { word, count } => {
            let lock = At {
                address: word,
                symbols,
            };
            write!(
                f,
                "{{\"is\":\"committed\",\"lock\":{lock},\"count\":{count}}}"
            )
        }
        Item::RolledBack { word, cause } => {
            let lock = At {
                address: word,
                symbols,
            };
            let cause = cause_word(cause);
            write!(
                f,
                "{{\"is\":\"rolled back\",\"lock\":{lock},\"cause\":\"{cause}\"}}"
            )
        }
        Item::Armed => f.write_str("{\"is\":\"armed\"}"),
        Item::LetGo { count } => write!(f, "{{\"is\":\"let go\",\"count\":{count}}}"),
        _ => Ok(()),
    }
}

fn write_access<W: fmt::Write>(
    f: &mut fmt::Formatter<W>,
    item: Item,
    symbols: &Symbols,
) -> fmt::Result {
    match item {
        Item::Read {
            address,
            len,
            value,
        } => {
            let from = At { address, symbols };
            let value = Known(value);
            write!(
                f,
                "{{\"is\":\"read\",\"from\":{from},\"bytes\":{len},\"value\":{value}}}"
            )
        }
        Item::Stored {
            address,
            len,
            value,
        } => {
            let to = At { address, symbols };
            let value = Known(value);
            write!(
                f,
                "{{\"is\":\"stored\",\"to\":{to},\"bytes\":{len},\"value\":{value}}}"
            )
        }
        Item::Appended { address, len } => {
            let from = At { address, symbols };
            write!(f, "{{\"is\":\"output\",\"from\":{from},\"bytes\":{len}}}")
        }
        _ => Ok(()),
    }
}

/// What is another of what the hart sees.
fn write_change<W: fmt::Write>(
    f: &mut fmt::Formatter<W>,
    item: Item,
    symbols: &Symbols,
) -> fmt::Result {
    match item {
        Item::Register { index, value } => {
            let name = register_name(index);
            write!(
                f,
                "{{\"is\":\"register\",\"name\":\"{name}\",\"value\":{value}}}"
            )
        }
        Item::Went { to } => {
            let to = At {
                address: to,
                symbols,
            };
            write!(f, "{{\"is\":\"goes\",\"to\":{to}}}")
        }
        Item::Exited { code } => write!(f, "{{\"is\":\"exit\",\"code\":{code}}}"),
        Item::Trapped { cause } => write!(f, "{{\"is\":\"trap\",\"cause\":{cause}}}"),
        _ => Ok(()),
    }
}

/// What happened at the bus.
fn write_bus<W: fmt::Write>(
    f: &mut fmt::Formatter<W>,
    item: Item,
    symbols: &Symbols,
) -> fmt::Result {
    match item {
        Item::Missed { line, need } => {
            let need = need_word(need);
            let line = At {
                address: first_byte(line),
                symbols,
            };
            write!(
                f,
                "{{\"is\":\"missed\",\"need\":\"{need}\",\"line\":{line}}}"
            )
        }
        Item::Stalled => f.write_str("{\"is\":\"waits\"}"),
        Item::Asked { request } => write_request(f, "request", request, symbols),
        Item::At { place } => write!(f, "{{\"is\":\"place\",\"place\":{place}}}"),
        Item::About { request } => write_request(f, "about", request, symbols),
        Item::Turned { hart, from, to } => {
            let hart = hart.number;
            let from = letter_word(from);
            let to = letter_word(to);
            write!(
                f,
                "{{\"is\":\"letter\",\"hart\":{hart},\"from\":\"{from}\",\"to\":\"{to}\"}}"
            )
        }
        Item::Took { message } => write_message(f, message),
        Item::Blocked { why, by } => write_blocked(f, why, by),
        Item::Lost { loser, winner } => {
            let loser = loser.number;
            let winner = winner.number;
            write!(f, "{{\"is\":\"lost\",\"hart\":{loser},\"to\":{winner}}}")
        }
        Item::Freed { hart, count } => {
            let hart = hart.number;
            write!(f, "{{\"is\":\"freed\",\"hart\":{hart},\"count\":{count}}}")
        }
        _ => Ok(()),
    }
}

/// A request; `stamp` is the clock of its stamp.
fn write_request<W: fmt::Write>(
    f: &mut fmt::Formatter<W>,
    is: &str,
    request: Request,
    symbols: &Symbols,
) -> fmt::Result {
    let hart = request.hart.number;
    let need = need_word(request.need);
    let line = At {
        address: first_byte(request.line),
        symbols,
    };
    write!(
        f,
        "{{\"is\":\"{is}\",\"hart\":{hart},\"need\":\"{need}\",\"line\":{line}"
    )?;
    if let Some(stamp) = request.stamp {
        let clock = stamp.clock;
        write!(f, ",\"stamp\":{clock}")?;
    }
    f.write_str("}")
}

fn write_message<W: fmt::Write>(f: &mut fmt::Formatter<W>, message: Message) -> fmt::Result {
    match message {
        Message::Marker { from } => {
            let from = from.number;
            write!(f, "{{\"is\":\"marker\",\"from\":{from}}}")
        }
        Message::Probe { origin } => {
            let origin = origin.number;
            write!(f, "{{\"is\":\"probe\",\"of\":{origin}}}")
        }
    }
}

fn write_blocked<W: fmt::Write>(f: &mut fmt::Formatter<W>, why: Why, by: HartId) -> fmt::Result {
    let by = by.number;
    let why = match why {
        Why::Behind => "behind",
        Why::Retained => "retained",
        Why::Locked => "locked",
    };
    write!(f, "{{\"is\":\"blocked\",\"why\":\"{why}\",\"by\":{by}}}")
}
