//! Keys of sixteen bytes.

/// The key of a number: no two numbers have the same.
pub fn word(number: u32) -> [u8; 16] {
    let mut out = *b"key-000000000000";
    let mut left = number;
    for letter in &mut out[4..12] {
        *letter = b'a' + (left % 16) as u8;
        left /= 16;
    }
    out
}
