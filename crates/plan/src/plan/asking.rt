// What a plan says of its classes, which are numbered from 1.
ghost use Rattle.std.specs.Prelude.{◌≡◌, ℕ, ◌<◌, length, Some, MatchOption};
ghost use Rattle.plan.specs.Classes.{of_class, size_at, chunks_of, left_of, class_of, Tiles, Smallest};
ghost use Rattle.plan.specs.Plans.{plan_sizes};

use super::{PAGE, Plan};

impl Plan {
    // How many classes there are.
    pub fn classes(&self) -> usize
        ensures { result ≡ length (plan_sizes self.now) }
    {
        self.count
    }

    // The size of a class's chunks, where there is such a class.
    pub fn size(&self, class: usize) -> Option<u32>
        ensures { result ≡ of_class (λ s. s) (plan_sizes self.now) class }
    {
        self.sizes[..self.count].get(class.checked_sub(1)?).copied()
    }

    // How many chunks a page gives to a class.
    #[tactic(auto, using(crate::proofs::Ask::not_empty))]
    pub fn chunks_per_page(&self, class: usize) -> Option<u32>
        ensures value { result ≡ of_class chunks_of (plan_sizes self.now) class }
        ensures tiles { (n : ℕ) → result ≡ Some n → Tiles (size_at (plan_sizes self.now) class) n }
    {
        let size = self.size(class)?;
        Some(PAGE / size)
    }

    // How many bytes of a page a class leaves over.
    #[tactic(auto, using(crate::proofs::Ask::not_empty))]
    pub fn left_over(&self, class: usize) -> Option<u32>
        ensures { result ≡ of_class left_of (plan_sizes self.now) class }
    {
        let size = self.size(class)?;
        Some(PAGE % size)
    }

    // The class of a record: the smallest whose chunks hold its need.
    pub fn class_of(&self, need: u64) -> Option<usize>
        ensures value { result ≡ class_of need (plan_sizes self.now) }
        ensures smallest { MatchOption result (4096 < need) (λ class. Smallest need (plan_sizes self.now) class) }
    {
        self.sizes[..self.count]
            .iter()
            .position(|size| need <= u64::from(*size))
            .map(|smaller| smaller + 1)
    }
}
