//! When a record is dead.

ghost use Rattle.std.specs.Prelude.{◌≡◌};
ghost use Rattle.model.specs.Records.{dead_at};

/// Whether a record of this expiry is dead at a second.
pub fn is_dead(expiry: Option<u64>, second: u32) -> bool
    ensures { result ≡ dead_at second expiry }
{
    expiry.is_some_and(|end| end <= u64::from(second))
}
