//! How many events are drawn over how many columns.

ghost use Rattle.std.specs.Prelude.{◌≡◌, ◌<◌};

/// How many events are drawn over how many columns.
#[derive(Clone, Copy, Debug, PartialEq, Eq)]
pub struct Scale {
    /// At least 1.
    pub events: u32,
    /// At least 1.
    pub width: u32,
    ghost some: { 0 < events },
    ghost wide: { 0 < width },
}

impl Scale {
    /// So many events over so many columns; none are taken for one.
    pub fn new(events: u32, width: u32) -> Scale
        ensures events { 0 < events → result.events ≡ events }
        ensures width { 0 < width → result.width ≡ width }
    {
        Scale {
            events: events.max(1),
            width: width.max(1),
        }
    }
}
