/// What is learnt of an acquire.
#[derive(Clone, Copy, Debug, PartialEq, Eq)]
pub enum Verdict {
    /// Its release came.
    Up,
    /// Its release did not come as it should.
    Down,
}
