// Making a plan, or refusing to.
ghost use Rattle.std.specs.Prelude.{◌≡◌, ◌≤◌, MatchResult};
ghost use Rattle.plan.specs.Sizes.{next_size, fair_start, Refused};
ghost use Rattle.plan.specs.Plans.{Made};
ghost use Rattle.refusals.specs.declared.Refusal.TheVariants.{Plan as Unlawful};

use super::{MOST_CLASSES, PAGE, Plan};
use refusals::Refusal;

// the largest size that is made by the percent
const LARGEST: u32 = 2048;

fn next_size(percent: u32, size: u32) -> u32
    requires { (size ≤ 2048) × (percent ≤ 200) }
    ensures { result ≡ next_size percent size }
{
    (size * percent / 100 + 7) / 8 * 8
}

fn fair_start(first: u32, percent: u32) -> bool
    ensures { result ≡ fair_start first percent }
{
    (48..=1024).contains(&first) && first % 8 == 0 && (110..=200).contains(&percent)
}

impl Plan {
    // The plan of this first size and percent, or the refusal where they make no lawful one.
    pub fn new(first: u32, percent: u32) -> Result<Plan, Refusal>
        ensures { MatchResult result (λ p. Made first percent p) (λ e. (e ≡ Unlawful) × Refused first percent) }
    {
        if !fair_start(first, percent) {
            return Err(Refusal::Plan);
        }
        let mut sizes = [0; MOST_CLASSES];
        let mut size = first;
        for (before, slot) in sizes.iter_mut().enumerate() {
            if size > LARGEST {
                // the last class has whole pages
                *slot = PAGE;
                return Ok(Plan {
                    first,
                    percent,
                    count: before + 1,
                    sizes,
                });
            }
            *slot = size;
            size = next_size(percent, size);
        }
        Err(Refusal::Plan)
    }
}
