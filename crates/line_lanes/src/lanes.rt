ghost use Rattle.std.specs.Prelude.{◌≡◌, ◌<◌, ◌==◌, ℕ, if◌then◌else◌};
ghost use Rattle.std.specs.Int.{bit_at, byte_at};

/// Four bytes for each number of four bits, the lowest bit for the first byte: ones where the bit is set.
const ONES: [u32; 16] = [
    0x0000_0000,
    0x0000_00ff,
    0x0000_ff00,
    0x0000_ffff,
    0x00ff_0000,
    0x00ff_00ff,
    0x00ff_ff00,
    0x00ff_ffff,
    0xff00_0000,
    0xff00_00ff,
    0xff00_ff00,
    0xff00_ffff,
    0xffff_0000,
    0xffff_00ff,
    0xffff_ff00,
    0xffff_ffff,
];

/// Eight bytes, of which each is all ones where its bit is set, else zero. Bits above the eighth say nothing.
fn spread(bits: u64) -> u64
    ensures { (place : ℕ) → place < 8 → byte_at place result ≡ (if bit_at bits place == 1 then 255 else 0) }
{
    let low = ONES[(bits % 16) as usize];
    let high = ONES[(bits / 16 % 16) as usize];
    u64::from(low) + (u64::from(high) << 32)
}

/// Eight bytes, of which each is that of `over` where its bit is set, else that of `under`.
pub fn merge_lane(under: u64, over: u64, bits: u64) -> u64
    ensures { (place : ℕ) → place < 8 →
        byte_at place result ≡ (if bit_at bits place == 1 then byte_at place over else byte_at place under) }
{
    under ^ ((under ^ over) & spread(bits))
}
