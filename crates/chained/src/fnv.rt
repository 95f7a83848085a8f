//! The hash of a text.

ghost use Rattle.std.specs.Prelude.{◌≡◌};
ghost use Rattle.chained.specs.Fnv.{fnv};

const START: u32 = 2_166_136_261;

const PRIME: u32 = 16_777_619;

/// The 32-bit hash FNV-1a of some bytes.
pub fn fnv1a(bytes: &[u8]) -> u32
    ensures { result ≡ fnv bytes.now }
{
    bytes.iter().fold(START, |hash, byte| {
        (hash ^ u32::from(*byte)).wrapping_mul(PRIME)
    })
}
