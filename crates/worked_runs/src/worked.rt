//! The parts of a run: its configuration, and an event with what came of it.

use crate::difference::Difference;
use crate::field::{byte, element, hart, member, text, word};
use el_base::{Config, Event, Kind, Mode};
use serde_json::Value;

/// The configuration of a run of so many events.
pub fn config(run: &Value, events: usize) -> Result<Config, Difference> {
    let given = member(run, "config")?;
    Ok(Config {
        harts: byte(member(given, "harts")?)?,
        mode: mode(text(member(given, "mode")?)?)?,
        sets: byte(member(given, "sets")?)?,
        ways: byte(member(given, "ways")?)?,
        lines: byte(member(given, "lines")?)?,
        long: word(member(given, "long")?)?,
        steps: u32::try_from(events).map_err(|_| Difference::Form)?,
    })
}

fn mode(name: &str) -> Result<Mode, Difference> {
    match name {
        "Plain" => Ok(Mode::Plain),
        "Sle" => Ok(Mode::Sle),
        "Tlr" => Ok(Mode::Tlr),
        _ => Err(Difference::Form),
    }
}

/// An event of a run: a list of its kind, its hart and what came of it.
pub fn event(value: &Value) -> Result<Event, Difference> {
    Ok(Event {
        kind: kind(text(element(value, 0)?)?)?,
        hart: hart(element(value, 1)?)?,
    })
}

fn kind(name: &str) -> Result<Kind, Difference> {
    match name {
        "Step" => Ok(Kind::Step),
        "Order" => Ok(Kind::Order),
        "Serve" => Ok(Kind::Serve),
        "Deliver" => Ok(Kind::Deliver),
        _ => Err(Difference::Form),
    }
}
