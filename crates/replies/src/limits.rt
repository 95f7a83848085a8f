//! How large the caller's buffer has to be.

ghost use Rattle.std.specs.Prelude.{◌≡◌};
ghost use Rattle.replies.specs.Fair.{EveryReplyFits};

/// A buffer of so many bytes has room for every reply that the table can give.
pub fn reply_bytes() -> usize
    ensures exact { result ≡ 18432 }
    ensures enough { EveryReplyFits result }
{
    18_432
}
