ghost use Rattle.std.specs.Prelude.{◌≡◌, ◌<◌, ◌^◌};
ghost use Rattle.el_base.specs.Line.{line_number};

/// How many bytes a line has.
pub const LINE_BYTES: u32 = 64;

/// A line of memory, by the address of any of its bytes divided by `LINE_BYTES`.
#[derive(Clone, Copy, Debug, PartialEq, Eq)]
pub struct LineAddr {
    pub number: u32,
    pub ghost small: { number < 2 ^ 26 },
}

/// The line that holds the byte at `address`.
pub fn line_of(address: u32) -> LineAddr
    ensures { result.number ≡ line_number address }
{
    LineAddr {
        number: address / LINE_BYTES,
    }
}
