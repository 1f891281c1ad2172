//! Lines merged, read, written and compared, with values worked by hand. At each place of the line that lies under, its
//! bytes are the place's number; over it are the same numbers, and 0x80 with each.

use crate::asserts::{self, same_at};
use line_lanes::*;

/// At each place the place's number and what is added to it.
fn line(more: u8) -> [u8; 64] {
    let mut bytes = [0; 64];
    for place in 0..64 {
        bytes[place as usize] = place | more;
    }
    bytes
}

/// A mask, a place, and the word there of `line(0)` under `line(0x80)`.
const WORDS: &[(u64, u8, u32)] = &[
    (0, 0, 0x0302_0100),
    (0, 60, 0x3f3e_3d3c),
    (u64::MAX, 0, 0x8382_8180),
    (u64::MAX, 60, 0xbfbe_bdbc),
    (0x1, 0, 0x0302_0180),
    (0x8000_0000_0000_0001, 60, 0xbf3e_3d3c),
    (0x8000_0000_0000_0001, 1, 0x0403_0201),
    (0x0000_0000_0000_00f0, 3, 0x8685_8403),
    (0x0000_0000_0000_0180, 7, 0x0a09_8887),
    (0xaaaa_aaaa_aaaa_aaaa, 30, 0xa120_9f1e),
    (0x5555_5555_5555_5555, 30, 0x21a0_1f9e),
    (0x0000_0000_8000_0000, 28, 0x9f1e_1d1c),
    (0x0000_0001_0000_0000, 29, 0xa01f_1e1d),
];

/// A place, the word there of `line(0)`, a word that is put there, and its bytes.
const PLACES: &[(u8, u32, u32, [u8; 4])] = &[
    (0, 0x0302_0100, 0x0403_02f1, [0xf1, 0x02, 0x03, 0x04]),
    (7, 0x0a09_0807, 0x8000_0000, [0x00, 0x00, 0x00, 0x80]),
    (60, 0x3f3e_3d3c, 0x00fe_0d0c, [0x0c, 0x0d, 0xfe, 0x00]),
];

#[test]
fn the_first_and_the_last_byte_are_merged_alone(rt: HostRuntime) {
    let mut merged = [0; 64];
    merge(&mut merged, &[0xff; 64], 0x8000_0000_0000_0001);
    let mut wanted = [0; 64];
    wanted[0] = 0xff;
    wanted[63] = 0xff;
    asserts::same(&rt, merged, wanted);
}

#[test]
fn words_are_merged_as_lines_are(rt: HostRuntime) {
    for &(mask, offset, word) in WORDS {
        let mut merged = line(0);
        merge(&mut merged, &line(0x80), mask);
        let found = word_under(&line(0), mask, offset);
        same_at(
            &rt,
            (mask, offset),
            (found, word_under(&merged, 0, offset)),
            (word, word),
        );
    }
}

#[test]
fn words_are_read_and_put_low_byte_first(rt: HostRuntime) {
    for &(place, word, other, bytes) in PLACES {
        let offset = place % 61;
        let mut changed = line(0);
        same_at(&rt, offset, word_at(&changed, offset), word);
        put_word(&mut changed, offset, other);
        let mut wanted = line(0);
        let start = usize::from(offset);
        wanted[start..start + 4].copy_from_slice(&bytes);
        same_at(&rt, offset, changed, wanted);
        same_at(&rt, offset, word_at(&changed, offset), other);
    }
}

/// The word at a place of a line under `line(0x80)`.
fn word_under(under: &[u8; 64], mask: u64, offset: u8) -> u32 {
    merged_word(under, &line(0x80), mask, offset % 61)
}

#[test]
fn lines_are_the_same_in_all_64_bytes(rt: HostRuntime) {
    assert!(rt; same(&line(0), &line(0)));
    for place in 0..64_usize {
        let mut other = line(0);
        other[place] ^= 0x40;
        assert!(rt; !same(&line(0), &other), "{place}");
    }
}
