/// What a cache knows of its copy of a line: the five states of the MOESI protocol (P. Sweazey and
/// A. J. Smith, 'A Class of Compatible Cache Consistency Protocols and their Support by the IEEE
/// Futurebus', ISCA 1986).
#[derive(Clone, Copy, Debug, PartialEq, Eq)]
pub enum Letter {
    /// Modified: the only copy, and main memory is behind it.
    M,
    /// Owned: others may have copies, and main memory is behind this one.
    O,
    /// Exclusive: the only copy, and main memory has the same bytes.
    E,
    /// Shared: others may have copies.
    S,
    /// Invalid: there is no copy.
    I,
}
