//! Numbers that `clap` does not read.

/// An address, by one to eight hexadecimal digits, with or without `0x` before them.
pub(crate) fn read_address(word: &str) -> Option<u32> {
    let digits = word.strip_prefix("0x").unwrap_or(word);
    if digits.starts_with('+') {
        return None;
    }
    u32::from_str_radix(digits, 16).ok()
}
