/// One slot of a pool, which only `Pool::take` makes: it is neither copied nor cloned, so that it names its 64 bytes
/// alone. One that is dropped, and not given back, stays out.
#[derive(Debug, Drop)]
pub struct Slot {
    pub(crate) owner: u16,
    /// Which of its owner's slots it is.
    pub(crate) place: u16,
}
