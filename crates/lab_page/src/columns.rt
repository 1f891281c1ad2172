//! Places of a history, as columns of a picture.

ghost use Rattle.std.specs.Prelude.{◌≡◌, ◌<◌};
ghost use Rattle.lab_page.specs.Scale.{column_at};

use crate::scale::Scale;

impl Scale {
    /// The column of a place: `place * width / events`, and the last one for a place behind all events.
    pub fn column(self, place: u32) -> u32
        ensures exact { result ≡ column_at self place }
        ensures within { result < self.width }
    {
        let column = u64::from(place) * u64::from(self.width) / u64::from(self.events);
        let last = self.width - 1;
        column.min(last.into()) as u32
    }
}
