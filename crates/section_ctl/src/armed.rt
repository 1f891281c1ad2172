/// What an armed section is known by. It has stored nothing.
#[derive(Clone, Copy, Debug, PartialEq, Eq)]
pub struct Armed {
    /// How many instructions it has run, its LR included.
    pub count: u32,
    /// The address of the word that its LR reserved.
    pub word: u32,
}

/// An armed section, with the value that its LR found in its word. It is kept apart, since the LR's register may be
/// overwritten before the SC.
#[derive(Clone, Copy, Debug, PartialEq, Eq)]
pub(crate) struct Reserved {
    pub(crate) armed: Armed,
    pub(crate) old: u32,
}
