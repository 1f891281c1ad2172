//! A number in a file.

ghost use Rattle.std.specs.Prelude.{◌≡◌, ◌+◌, ◌≤◌, length};
ghost use Rattle.file_numbers.specs.Numbers.{number_at};

use byteorder::{ByteOrder, LittleEndian};

/// The number of the four bytes at a place, the lowest first, as this project's profile has it.
pub fn number_at(file: &[u8], place: u32) -> u32
    requires { place + 4 ≤ length file.now }
    ensures { result ≡ number_at file.now place }
{
    LittleEndian::read_u32(&file[place as usize..])
}
