//! The requests after the last event.

use crate::difference::Difference;
use crate::field::{element, hart, is_null, list, member, text, word};
use bus_order::Request;
use el_base::{HartId, LINE_BYTES, LineAddr, Need, line_of};
use serde_json::Value;
use snoop::Asked;
use stamp::Stamp;

/// Whether a hart has asked what an end tells of it: a request that is raised, or one that has a place in the order.
/// Which place is not compared.
pub fn request_agrees(
    asked: Asked,
    hart: HartId,
    end: &Value,
    told: &Value,
) -> Result<bool, Difference> {
    let (raised, placed) = match asked {
        Asked::Nothing => (None, None),
        Asked::Raised { request } => (Some(request), None),
        Asked::Placed { request } => (None, Some(request)),
    };
    Ok(raised_agrees(raised, told)? && placed_agrees(placed, hart, end)?)
}

/// Whether a raised request is the one that is told of a hart, where that is told.
fn raised_agrees(raised: Option<Request>, told: &Value) -> Result<bool, Difference> {
    match told.get("raised") {
        Some(told) if is_null(told) => Ok(raised == None),
        Some(told) => Ok(raised == Some(request(told)?)),
        None => Ok(true),
    }
}

/// Whether a hart's request in the order is the one that is told there, where an order is told.
fn placed_agrees(placed: Option<Request>, hart: HartId, end: &Value) -> Result<bool, Difference> {
    let Some(order) = end.get("order") else {
        return Ok(true);
    };
    for told in list(order)? {
        let told = request(told)?;
        if told.hart == hart {
            return Ok(placed == Some(told));
        }
    }
    Ok(placed == None)
}

/// A request that is told.
fn request(told: &Value) -> Result<Request, Difference> {
    Ok(Request {
        hart: hart(member(told, "hart")?)?,
        line: line(member(told, "line")?)?,
        need: need(text(member(told, "need")?)?)?,
        stamp: stamp(member(told, "stamp")?)?,
    })
}

/// A line, of its number.
fn line(number: &Value) -> Result<LineAddr, Difference> {
    match word(number)?.checked_mul(LINE_BYTES) {
        Some(address) => Ok(line_of(address)),
        None => Err(Difference::Form),
    }
}

fn need(name: &str) -> Result<Need, Difference> {
    match name {
        "Read" => Ok(Need::Read),
        "Write" => Ok(Need::Write),
        _ => Err(Difference::Form),
    }
}

/// A stamp, which is null or a list of its clock and its hart.
fn stamp(told: &Value) -> Result<Option<Stamp>, Difference> {
    if is_null(told) {
        return Ok(None);
    }
    Ok(Some(Stamp {
        clock: element(told, 0)?.as_u64().ok_or(Difference::Form)?,
        hart: hart(element(told, 1)?)?,
    }))
}
