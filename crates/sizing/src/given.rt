ghost use Rattle.std.specs.Prelude.{◌≡◌};
ghost use Rattle.sizing.specs.Given.{given_pages};

use refusals::Refusal;

// The pages that a table may be given, or the refusal.
pub fn pages_given(pages: u64) -> Result<u64, Refusal>
    ensures { result ≡ given_pages pages }
{
    if (1..=256).contains(&pages) {
        Ok(pages)
    } else {
        Err(Refusal::Memory)
    }
}
