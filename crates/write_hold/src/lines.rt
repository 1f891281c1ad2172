/// A new line would be one more than a hold may have; it has `have` of them.
#[derive(Clone, Copy, Debug, PartialEq, Eq)]
pub struct Lines {
    pub have: u8,
}
