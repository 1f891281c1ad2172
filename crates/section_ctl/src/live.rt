/// What a live section is known by.
#[derive(Clone, Copy, Debug, PartialEq, Eq)]
pub struct Live {
    /// How many instructions it has run, its acquire included.
    pub count: u32,
    /// The address of its lock word.
    pub word: u32,
    /// The value that its acquire found in the lock word.
    pub old: u32,
    /// The value that its acquire would have stored there, and that the section reads there.
    pub new: u32,
}
