//! Opening a slab over rows that it is handed.

ghost use Rattle.std.specs.Prelude.{◌≡◌, [], length, replicate, vec_len};
ghost use Rattle.plan.specs.Plans.{plan_sizes};
ghost use Rattle.slabs.specs.Rows.{blank};
ghost use Rattle.slabs.specs.Slabs.{Lists, Sound};
ghost use Rattle.slabs.specs.Openings.{Opened, pages_of};

use super::{MOST_PAGES, ROWS_PER_PAGE, Slab};
use crate::classes::Classes;
use crate::row::Row;
use plan::Plan;

// How many pages so many rows serve.
fn pages_for(rows: usize) -> usize
    ensures { result ≡ pages_of rows }
{
    (rows / ROWS_PER_PAGE).min(MOST_PAGES)
}

impl Slab {
    /// A slab with no records over these rows, 85 for each page. What the rows held before does not matter.
    pub fn open(plan: &Plan, mut rows: Vec<Row>) -> Slab
        ensures sound { ∥ Sound result ∥₁ }
        ensures empty { Lists result (λ _. []) }
        ensures opened { Opened (plan_sizes plan.now) (vec_len rows) result }
    {
        let pages = pages_for(rows.len());
        rows.truncate(ROWS_PER_PAGE * pages);
        rows.fill(Row::blank());
        Slab {
            rows,
            classes: Classes::planned(plan),
            owners: [0; MOST_PAGES],
            given: 0,
            pages: pages as u32,
        }
    }
}
