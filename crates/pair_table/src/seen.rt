/// What an instruction that ran outside of a section was to the acquire that is watched.
#[derive(Clone, Copy, Debug, PartialEq, Eq)]
pub struct Seen {
    /// It was the release of the watched word.
    pub release: bool,
    /// It stored to a byte of the watched word.
    pub touches: bool,
    /// It made a call or stopped the hart.
    pub call_or_stop: bool,
}
