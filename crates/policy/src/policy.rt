ghost use Rattle.std.specs.Prelude.{◌≡◌};
ghost use Rattle.std.specs.Option.{option_map};
ghost use Rattle.stamp.specs.Stamps.{numbered_stamp};

use stamp::Stamp;

/// Who wins where a request meets another hart's section.
pub trait Policy {
    ghost use Rattle.std.specs.Prelude.{Bool, Option};
    ghost use Rattle.stamp.specs.Stamps as stamps;

    /// Whether a request with the first stamp, if it has one, wins over a section with the second, if
    /// it has one.
    ghost beats: { Self → Option stamps.Stamp → Option stamps.Stamp → Bool };

    /// Whether a request with the stamp `request`, if it has one, wins over a section with the stamp
    /// `holder`, if that has one.
    fn wins(&self, request: Option<Stamp>, holder: Option<Stamp>) -> bool
        ensures { result ≡ beats self.now (option_map numbered_stamp request) (option_map numbered_stamp holder) };
}
