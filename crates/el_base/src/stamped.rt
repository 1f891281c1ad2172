use crate::hart_id::HartId;

/// The stamp of an attempt at a section: a hart's clock as the attempt opened, and the hart.
#[derive(Clone, Copy, Debug, PartialEq, Eq)]
pub struct Stamped {
    pub clock: u64,
    pub hart: HartId,
}
