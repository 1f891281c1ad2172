use el_base::LineAddr;
use moesi::Letter;

/// A line that left a cache for another one.
#[derive(Clone, Copy)]
pub struct Evicted {
    pub line: LineAddr,
    pub letter: Letter,
    pub bytes: [u8; 64],
}
