//! What is drawn.

ghost use Rattle.std.specs.Prelude.{◌≡◌, ◌<◌};
ghost use Rattle.lab_page.specs.Kinds.{kind_number, kind_of};

use el_base::Cause;
use lab::Ended;
use lab_tables::LockKind;

/// What a piece of a lane stands for. Each has a colour of its own.
#[derive(Clone, Copy, Debug, PartialEq, Eq)]
pub enum Kind {
    /// A section that took effect.
    Committed,
    /// A section whose acquire gives a lock back, and that took effect.
    Released,
    /// A section that was lost to another hart.
    Lost,
    /// A section that was rolled back: its cache had no room.
    Room,
    /// It would have written too many lines.
    Lines,
    /// It ran too long.
    Long,
    /// It came to a call or a stop.
    Call,
    /// It stored to its lock word.
    Mixed,
    /// A section that is live at the end.
    Live,
    /// A request of the hart that was raised and not served yet.
    Waited,
    /// A request that was served.
    Served,
    /// A line that changed its owner.
    Moved,
}

/// How many kinds there are.
pub const KINDS: usize = 12;

impl Kind {
    /// All kinds, by their numbers.
    pub(crate) const ALL: [Kind; KINDS] = [
        Kind::Committed,
        Kind::Released,
        Kind::Lost,
        Kind::Room,
        Kind::Lines,
        Kind::Long,
        Kind::Call,
        Kind::Mixed,
        Kind::Live,
        Kind::Waited,
        Kind::Served,
        Kind::Moved,
    ];

    /// What a section is drawn as, by what its acquire does to the lock and how it ended.
    pub fn of(what: LockKind, ended: Ended) -> Kind
        ensures { result ≡ kind_of what ended }
    {
        match ended {
            Ended::Live => Kind::Live,
            Ended::Committed { .. } => match what {
                LockKind::Take => Kind::Committed,
                LockKind::Release => Kind::Released,
            },
            Ended::LostTo { .. } => Kind::Lost,
            Ended::RolledBack { cause, .. } => match cause {
                Cause::Room => Kind::Room,
                Cause::Lines => Kind::Lines,
                Cause::Long => Kind::Long,
                Cause::Call => Kind::Call,
                Cause::Mixed => Kind::Mixed,
            },
        }
    }

    /// The number of the kind: the place of its count in a [`crate::Bar`].
    pub fn number(self) -> usize
        ensures exact { result ≡ kind_number self }
        ensures small { result < KINDS }
    {
        self as usize
    }

    /// Its class in the page's style.
    pub(crate) fn class(self) -> &'static str {
        match self {
            Kind::Committed => "committed",
            Kind::Released => "released",
            Kind::Lost => "lost",
            Kind::Room => "room",
            Kind::Lines => "lines",
            Kind::Long => "long",
            Kind::Call => "call",
            Kind::Mixed => "mixed",
            Kind::Live => "live",
            Kind::Waited => "waited",
            Kind::Served => "served",
            Kind::Moved => "moved",
        }
    }

    /// What the page says of it.
    pub(crate) fn words(self) -> &'static str {
        match self {
            Kind::Committed => "committed",
            Kind::Released => "committed, its acquire gives a lock back",
            Kind::Lost => "lost to another hart",
            Kind::Room => "rolled back: no room in the cache",
            Kind::Lines => "rolled back: too many lines",
            Kind::Long => "rolled back: too long",
            Kind::Call => "rolled back: a call or a stop",
            Kind::Mixed => "rolled back: another store to the lock",
            Kind::Live => "live at the end",
            Kind::Waited => "waited for a line",
            Kind::Served => "served",
            Kind::Moved => "changed its owner",
        }
    }
}
