//! Bytes in a readable notation.

ghost use Rattle.std.specs.Prelude.{◌<◌};

use std::alloc::{AllocError, Global};

/// The most often that a byte is repeated by one mark.
const MOST: usize = 100_000;

/// The value of a hexadecimal digit, and 0 for any other byte; `to_digit` would take capitals too.
fn hex(digit: u8) -> u8
    ensures { result < 16 }
{
    match digit {
        b'0'..=b'9' => digit - b'0',
        b'a'..=b'f' => digit - b'a' + 10,
        _ => 0,
    }
}

/// The number that digits write, and at most `MOST`.
fn count(digits: &[u8]) -> usize {
    digits.iter().fold(0usize, |number, digit| {
        number
            .saturating_mul(10)
            .saturating_add(usize::from(hex(*digit)))
            .min(MOST)
    })
}

/// The bytes that `text` stands for.
pub fn decoded(heap: Global, text: &[u8]) -> Result<Vec<u8>, AllocError> {
    let mut bytes = Vec::new(heap);
    let mut last = 0u8;
    let mut rest = text;
    while let [first, behind @ ..] = rest {
        (last, rest) = match rest {
            [b'\\', b'(', mark @ ..] => {
                let end = mark.iter().position(|byte| *byte == b')');
                let (digits, behind) = mark.split_at(end.unwrap_or(mark.len()));
                for _ in 1..count(digits) {
                    bytes.push(last)?;
                }
                rest = behind.split_first().map_or(behind, |(_, behind)| behind);
                continue;
            }
            [b'\\', b'x', high, low, behind @ ..] => (hex(*high) * 16 + hex(*low), behind),
            [b'\\', b'r', behind @ ..] => (b'\r', behind),
            [b'\\', b'n', behind @ ..] => (b'\n', behind),
            [b'\\', b't', behind @ ..] => (b'\t', behind),
            [b'\\', other, behind @ ..] => (*other, behind),
            [b'\\'] => (0, behind),
            _ => (*first, behind),
        };
        bytes.push(last)?;
    }
    Ok(bytes)
}
