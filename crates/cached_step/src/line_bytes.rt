//! Words and stores within the bytes of one line.

ghost use Rattle.std.specs.Prelude.{◌≡◌, ◌+◌, ◌*◌, ◌≤◌, ◌<◌, ℕ, length, slice_index};
ghost use Rattle.el_base.specs.declared.line.TheConstants.{LINE_BYTES};
ghost use Rattle.rv_flat.specs.Memory.{put_bytes};

/// The little-endian word at a place of a line.
pub fn word_at(bytes: &[u8; 64], place: u8) -> u32
    requires { place + 4 ≤ 64 }
    ensures value { result ≡ slice_index bytes.now place + 256 * (slice_index bytes.now (place + 1)
        + 256 * (slice_index bytes.now (place + 2) + 256 * slice_index bytes.now (place + 3))) }
    ensures bytes { (at : ℕ) → slice_index bytes.now at < 256 }
{
    let place = place as usize;
    u32::from(bytes[place])
        + 256
            * (u32::from(bytes[place + 1])
                + 256 * (u32::from(bytes[place + 2]) + 256 * u32::from(bytes[place + 3])))
}

/// Puts the low `len` bytes of a value at a place of a line, the lowest first.
#[tactic(auto, using(rv_flat::proofs::Laws::PutBytes::put_bytes_more))]
pub fn put_at(bytes: &mut [u8; 64], place: u8, len: u32, value: u32)
    requires { place + len ≤ 64 }
    ensures bytes { bytes.new ≡ put_bytes bytes.old place len value }
    ensures whole_line { length bytes.old ≡ LINE_BYTES }
{
    let start = place as usize;
    let mut rest = value;
    for at in start..start + len as usize {
        bytes[at] = (rest % 256) as u8;
        rest /= 256;
    }
}
