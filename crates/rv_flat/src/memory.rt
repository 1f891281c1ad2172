ghost use Rattle.std.specs.Prelude.{◌≡◌, ◌+◌, ◌++◌, ◌≤◌, drop, length, take};
ghost use Rattle.byteorder.specs.Endian.{little_from};
ghost use Rattle.rv_alu.specs.Footprint.{IsSize};
ghost use Rattle.rv_flat.specs.Memory.{put_bytes};

use byteorder::{ByteOrder, LittleEndian};

/// So many bytes from a place on, as a little-endian number.
pub fn loaded(bytes: &[u8], place: usize, len: u32) -> u32
    requires size { IsSize len }
    requires inside { place + len ≤ length bytes.now }
    ensures { result ≡ little_from place len bytes.now }
{
    match len {
        1 => u32::from(bytes[place]),
        2 => u32::from(LittleEndian::read_u16(&bytes[place..])),
        _ => LittleEndian::read_u32(&bytes[place..]),
    }
}

/// Puts the low bytes of a number at a place, the lowest first.
#[tactic(auto, using(crate::proofs::Laws::PutBytes::put_bytes_more))]
pub fn put_bytes(bytes: &mut [u8], place: usize, len: u32, value: u32)
    requires { place + len ≤ length bytes.old }
    ensures { bytes.new ≡ put_bytes bytes.old place len value }
{
    let mut rest = value;
    for at in place..place + len as usize {
        bytes[at] = (rest % 256) as u8;
        rest /= 256;
    }
}

/// Puts bytes at a place, over as many.
pub fn put_back(bytes: &mut [u8], place: usize, held: &[u8])
    requires { place + length held.now ≤ length bytes.old }
    ensures { bytes.new ≡ take place bytes.old ++ held.now ++ drop (place + length held.now) bytes.old }
{
    bytes[place..place + held.len()].copy_from_slice(held);
}
