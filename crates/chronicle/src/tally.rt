/// What a history says of one hart, in numbers of entries unless said otherwise. The default is what a
/// history of no events says.
#[derive(Clone, Copy, Debug, Default, PartialEq, Eq)]
pub struct Tally {
    /// Instructions that ran outside of a section.
    pub ran: u64,
    /// Sections that began.
    pub began: u64,
    /// Sections that took effect.
    pub committed: u64,
    /// Instructions in the sections that took effect.
    pub instr: u64,
    /// Events, of any hart, in which a section of this one lost.
    pub conflict: u64,
    /// Sections rolled back for want of room in the cache.
    pub room: u64,
    /// Sections rolled back since they would write too many lines.
    pub lines: u64,
    /// Sections rolled back since they ran too long.
    pub long: u64,
    /// Sections rolled back before a call or a stop.
    pub call: u64,
    /// Sections rolled back before a store to their lock that was no release.
    pub mixed: u64,
    /// Steps that raised a request.
    pub missed: u64,
    /// Steps that waited for a request.
    pub stalled: u64,
    /// Requests that were not served.
    pub blocked: u64,
}
