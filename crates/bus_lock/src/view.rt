use el_base::Entry;

/// What a seat at the lock's table knows. No value of it is made; a clause reads an array as a list, of
/// any length.
pub struct View {
    /// Not yet joined to another.
    pub live: bool,
    /// One more than the ticket that was drawn, or 0.
    pub ticket: u64,
    /// Its ticket is served, and the value is out with it.
    pub turn: bool,
    pub opening: [u64; 0],
    pub seen: [Entry; 0],
    /// What the other half of a join had seen, until the two are compared.
    pub beside: [Entry; 0],
    pub places: [u64; 0],
    pub share: [bool; 0],
}
