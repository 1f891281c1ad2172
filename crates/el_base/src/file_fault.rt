ghost use Rattle.std.specs.Prelude.{◌≡◌};

use crate::numbered::Numbered;

/// A fault of a file: which one of its format's faults it is, and where it shows.
#[derive(Clone, Copy, Debug, PartialEq, Eq)]
pub struct FileFault {
    /// The fault's number in the list of its format, from 1 on.
    pub number: u8,
    /// The place in the file, in bytes from its start, that the format names for the fault.
    pub place: u32,
}

/// A fault that the files of a format may have.
pub trait FormatFault: Numbered {
    /// This fault, as a place of a file shows it.
    final fn at(self, place: u32) -> FileFault
        ensures { result ≡ record { number = Self.number_of self; place = place } }
    {
        FileFault {
            number: self.number(),
            place,
        }
    }
}
