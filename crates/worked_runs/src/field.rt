//! The members of a run's text.

use crate::difference::Difference;
use el_base::HartId;
use serde_json::Value;

/// A member of an object.
pub fn member<'a>(value: &'a Value, name: &str) -> Result<&'a Value, Difference> {
    value.get(name).ok_or(Difference::Form)
}

/// An element of a list.
pub fn element(value: &Value, place: usize) -> Result<&Value, Difference> {
    value.get(place).ok_or(Difference::Form)
}

/// The elements of a list.
pub fn list(value: &Value) -> Result<&Vec<Value>, Difference> {
    value.as_array().ok_or(Difference::Form)
}

/// A number of 32 bits.
pub fn word(value: &Value) -> Result<u32, Difference> {
    let number = value.as_u64().ok_or(Difference::Form)?;
    u32::try_from(number).map_err(|_| Difference::Form)
}

/// A hart, of its number.
pub fn hart(value: &Value) -> Result<HartId, Difference> {
    HartId::new(byte(value)?).ok_or(Difference::Form)
}

/// A number of 8 bits.
pub fn byte(value: &Value) -> Result<u8, Difference> {
    let number = value.as_u64().ok_or(Difference::Form)?;
    u8::try_from(number).map_err(|_| Difference::Form)
}

/// A text.
pub fn text(value: &Value) -> Result<&str, Difference> {
    value.as_str().ok_or(Difference::Form)
}

/// Whether a value is null.
pub fn is_null(value: &Value) -> bool {
    value.as_null().is_some()
}

/// Whether something is so.
pub fn truth(value: &Value) -> Result<bool, Difference> {
    value.as_bool().ok_or(Difference::Form)
}
