//! Keys and numbers, as tokens write them.

ghost use Rattle.std.specs.Prelude.{◌≡◌, ◌≤◌};
ghost use Rattle.lines.specs.Numbers.{good_key, number_of, exptime_of};

/// The longest key.
const KEY_LIMIT: usize = 250;

/// Whether a key may have this byte: no control byte, no space, no DEL.
fn is_key_byte(byte: u8) -> bool
    ensures { result ≡ Rattle.lines.specs.Numbers.key_byte byte }
{
    byte > b' ' && byte != 127
}

/// Whether a token is a good key.
pub fn is_key(token: &[u8]) -> bool
    ensures { result ≡ good_key token.now }
{
    !token.is_empty() && token.len() <= KEY_LIMIT && token.iter().all(|byte| is_key_byte(*byte))
}

// Proved with `str::parse` too, but slower: the reading of a `set` with its three numbers takes 113 ns so, and 75 ns by this loop.
/// The number that a token writes with at most `most` digits, if it is at most `top`.
pub fn number(token: &[u8], most: usize, top: u64) -> Option<u64>
    ensures { result ≡ number_of most top token.now }
{
    if token.is_empty() || token.len() > most {
        return None;
    }
    let mut value = 0u64;
    for byte in token {
        if !byte.is_ascii_digit() {
            return None;
        }
        let digit = u64::from(*byte - b'0');
        value = value.checked_mul(10)?.checked_add(digit)?;
    }
    (value <= top).then_some(value)
}

/// The exptime that a token writes: a minus or none, and digits.
pub fn exptime(token: &[u8]) -> Option<i32>
    ensures { result ≡ exptime_of token.now }
{
    if let [b'-', digits @ ..] = token {
        let size = number(digits, 10, 2_147_483_648)?;
        Some((0 - size as i64) as i32)
    } else {
        let size = number(token, 10, 2_147_483_647)?;
        Some(size as i32)
    }
}
