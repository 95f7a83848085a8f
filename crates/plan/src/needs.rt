ghost use Rattle.std.specs.Prelude.{◌≡◌};
ghost use Rattle.plan.specs.Need.{need_of};

// The room that a record takes in its chunk, from the lengths of its key and its data.
pub fn need(key: u32, block: u32) -> u64
    ensures { result ≡ need_of key block }
{
    key as u64 + block as u64
}
