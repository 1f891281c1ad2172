ghost use Rattle.std.specs.Prelude.{◌≡◌, ◌<◌, ◌↔◌, IsNone, IfSome};

/// An integer register, x0 to x31 (RISC-V unprivileged manual, chapter 2).
#[derive(Clone, Copy, Debug, PartialEq, Eq)]
pub struct Reg {
    /// 0 to 31.
    pub number: u8,
    pub ghost small: { number < 32 },
}

impl Reg {
    /// The register of this number, or none where there is no such register.
    pub fn new(number: u8) -> Option<Reg>
        ensures none_exactly_over_31 { IsNone result ↔ (31 < number) }
        ensures exact { IfSome result (λ reg. reg.number ≡ number) }
    {
        if number < 32 {
            Some(Reg { number })
        } else {
            None
        }
    }

    /// 0 to 31.
    pub fn number(self) -> u8
        ensures exact { result ≡ self.number }
        ensures in_range { result < 32 }
    {
        self.number
    }
}
