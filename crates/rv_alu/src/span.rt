/// The addresses of memory: from `base` up to `end`, which is not one of them.
#[derive(Clone, Copy, Debug, PartialEq, Eq)]
pub struct Span {
    pub base: u32,
    pub end: u32,
}

impl Span {
    ghost use Rattle.std.specs.Prelude.{◌≡◌};
    ghost use Rattle.rv_alu.specs.Span.{holds};

    /// Whether so many bytes from an address on are in memory.
    pub fn holds(&self, address: u32, size: u32) -> bool
        ensures { result ≡ holds self.now address size }
    {
        self.base <= address && address <= self.end && size <= self.end - address
    }
}
