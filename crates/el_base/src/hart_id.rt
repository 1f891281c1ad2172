ghost use Rattle.std.specs.Prelude.{◌≡◌, ◌<◌, ◌↔◌, IsNone, IfSome};
ghost use Rattle.el_base.specs.declared.hart_id.TheConstants.{MAX_HARTS};

/// The most harts that a machine has.
pub const MAX_HARTS: u8 = 8;

/// One hart of a machine, by its number from 0 to 7.
#[derive(Clone, Copy, Debug, PartialEq, Eq)]
pub struct HartId {
    pub number: u8,
    pub ghost small: { number < MAX_HARTS },
}

impl HartId {
    /// The hart of this number, or `None` where the number is above 7.
    pub fn new(number: u8) -> Option<HartId>
        ensures none_exactly_above_7 { IsNone result ↔ (7 < number) }
        ensures number_kept { IfSome result (λ hart. hart.number ≡ number) }
    {
        if number < MAX_HARTS {
            Some(HartId { number })
        } else {
            None
        }
    }

    /// The hart at this place in a list of one thing a hart.
    pub fn at(index: usize) -> HartId
        requires { index < MAX_HARTS }
        ensures { result.number ≡ index }
    {
        HartId {
            number: index as u8,
        }
    }

    /// The number that the hart was made of.
    pub fn number(self) -> u8
        ensures { result ≡ self.number }
    {
        self.number
    }
}
