use el_base::{HartId, LineAddr, Need};
use stamp::Stamp;

/// What a hart asks of the bus.
#[derive(Clone, Copy, Debug, PartialEq, Eq)]
pub struct Request {
    pub hart: HartId,
    pub line: LineAddr,
    pub need: Need,
    /// The stamp of the hart's open attempt as the request was raised, if one was open.
    pub stamp: Option<Stamp>,
}

/// What stands in the places of an order that are not used. It tells nothing.
impl Default for Request {
    fn default() -> Request {
        Request {
            hart: HartId { number: 0 },
            line: LineAddr { number: 0 },
            need: Need::Read,
            stamp: None,
        }
    }
}
