/// Out of memory, with the value that a call was given, which it hands back as it was.
#[derive(Debug, Drop)]
pub struct Kept<T: Drop> {
    pub value: T,
}
