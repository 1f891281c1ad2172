//! What a hart has asked of the bus.

use bus_order::Request;

/// What a hart has asked of the bus: it has at most one request at a time.
#[derive(Clone, Copy, Debug, PartialEq, Eq)]
pub enum Asked {
    /// It waits for nothing.
    Nothing,
    /// It has raised a request, which has no place in the order yet.
    Raised { request: Request },
    /// Its request has a place in the order, and is not served yet.
    Placed { request: Request },
}
