//! The harts of the examples.

use el_base::HartId;

/// The hart of a number, of which eight are the first again. It cannot fail, so a table of harts needs no `?`.
pub(crate) fn hart(number: u8) -> HartId {
    HartId::at(usize::from(number % 8))
}
