// What a tally comes to: the pages of each class, of all, and whether the pages at hand suffice.
ghost use Rattle.std.specs.Prelude.{◌≡◌, ◌^◌, ◌<◌, ◌≤◌, length};
ghost use Rattle.plan.specs.Plans.{plan_sizes};
ghost use Rattle.sizing.specs.Pages.{pages_for, Least, pages_at, ClassPages, share_of, load_of, pages_up_to, Settled};

use super::{Load, Shortage, Sum, Tally};
use plan::PAGE;

// The least number of pages of so many chunks that give a chunk to every record.
fn pages_for(records: u64, chunks: u32) -> u128
    requires { 0 < chunks }
    ensures value { result ≡ pages_for records chunks }
    ensures least { Least records chunks result }
    ensures bound { result ≤ records }
{
    (records as u128 + (chunks as u128 - 1)) / chunks as u128
}

impl Sum {
    // The thousandths of that many pages that the bytes take.
    fn share(self, pages: u128) -> u128
        requires { pages < 2 ^ 80 }
        ensures { result ≡ share_of self.filled pages }
    {
        if pages == 0 {
            0
        } else {
            self.filled * 1000 / (pages * u128::from(PAGE))
        }
    }
}

impl Tally {
    // The pages that a class needs for its records; none where the plan has no such class.
    pub fn pages(&self, class: usize) -> u128
        ensures value { result ≡ pages_at self.now class }
        ensures least { ClassPages self.now class result }
        ensures bound { result < 2 ^ 64 }
    {
        // by `map_or` the closure would have to be told anew that the plan has the class
        match self.plan.chunks_per_page(class) {
            Some(chunks) => pages_for(self.sums[class - 1].records, chunks),
            None => 0,
        }
    }

    // What a class comes to, where the plan has it.
    pub fn load(&self, class: usize) -> Option<Load>
        ensures { result ≡ load_of self.now class }
    {
        let chunks = self.plan.chunks_per_page(class)?;
        let sum = self.sums[class - 1];
        let pages = self.pages(class);
        Some(Load {
            records: sum.records,
            pages,
            chunks: pages * chunks as u128,
            share: sum.share(pages),
        })
    }

    // The pages that all classes need.
    #[tactic(auto, using(crate::proofs::Counts::some_class, crate::proofs::Counts::up_to))]
    pub fn pages_in_all(&self) -> u128
        ensures { result ≡ pages_up_to self.now (length (plan_sizes self.now.plan)) }
    {
        let mut total = 0;
        for class in 1..=self.plan.classes() {
            total += self.pages(class);
        }
        total
    }

    // Hands the pages to the classes in their order, and says how many are left, or where they run out.
    #[tactic(auto, using(crate::proofs::Counts::some_class, crate::proofs::Counts::up_to))]
    pub fn account(&self, given: u64) -> Result<u128, Shortage>
        ensures { Settled self.now given result }
    {
        let mut left = given as u128;
        for class in 1..=self.plan.classes() {
            let pages = self.pages(class);
            if pages > left {
                return Err(Shortage {
                    class,
                    lacks: pages - left,
                });
            }
            left -= pages;
        }
        Ok(left)
    }
}
