//! All the classes of a slab, by number: the steps that see the links of their lists.

ghost use Rattle.std.specs.Prelude.{◌≡◌, ℕ, ◌+◌, ◌^◌, ◌<◌, ◌≤◌, List, length, map, slice_index, slice_index_or, slice_set};
ghost use Rattle.plan.specs.Plans.{plan_sizes};
ghost use Rattle.slabs.specs.Rows.{homes, rests};
ghost use Rattle.slabs.specs.Classes.{count_at, frame, no_class, Fresh};
ghost use Rattle.slabs.specs.declared.class.Stand.TheVariants.{Free};
ghost use Rattle.slabs.specs.Lists.{list_of, free_of, into, out_of, shift, to_front, stocked, filled, Family};

use crate::class::{Class, Stand, number};
use crate::row::Row;
use plan::{MOST_CLASSES, Plan};

/// The classes by number; class 0 and those past the plan's are no classes.
#[derive(Clone, Copy)]
pub struct Classes {
    pub all: [Class; MOST_CLASSES + 1],
}

// Rows are lent to each call, so what ties the classes to them (`lists`, `within`, `home`) stands at the calls, and so does what
// is known of the number that is asked for (`class`, `room`): no type holds both.
impl Classes {
    // The classes of a plan, with no pages.
    pub fn planned(plan: &Plan) -> Classes
        ensures long { length result.all ≡ 33 }
        ensures classes { (class : ℕ) → class < 33 → Fresh (plan_sizes plan.now) class (slice_index_or result.all class no_class) }
    {
        Classes {
            all: std::array::from_fn(|class| Class::planned(plan, class)),
        }
    }

    // Puts a row that is in no list at the front of a list of a class. `Class::enter` sees one class, and this the lists of all.
    fn enter(&mut self, rows: &mut [Row], class: usize, stand: Stand, i: u32)
        requires class { class < 33 }
        requires within { i < length rows.old }
        requires room { count_at self.old.all class stand + 1 < 2 ^ 32 }
        requires lists { ∥ ((ls : ℕ → List ℕ) × Family self.old.all rows.old ls) ∥₁ }
        requires home { slice_index (homes rows.old) i ≡ 0 }
        ensures lists { (ls : ℕ → List ℕ) → Family self.old.all rows.old ls → Family self.new.all rows.new (into i (list_of stand class) ls) }
        ensures homes { homes rows.new ≡ slice_set (homes rows.old) i (list_of stand class) }
        ensures rests { rests rows.new ≡ rests rows.old }
        ensures frames { map frame self.new.all ≡ map frame self.old.all }
    {
        let home = number(stand, class);
        self.all[class].enter(rows, stand, i, home);
    }

    // Takes a row out of the list of a class that it is in.
    fn leave(&mut self, rows: &mut [Row], class: usize, stand: Stand, i: u32)
        requires class { class < 33 }
        requires within { i < length rows.old }
        requires lists { ∥ ((ls : ℕ → List ℕ) × Family self.old.all rows.old ls) ∥₁ }
        requires home { slice_index (homes rows.old) i ≡ list_of stand class }
        ensures lists { (ls : ℕ → List ℕ) → Family self.old.all rows.old ls → Family self.new.all rows.new (out_of i (list_of stand class) ls) }
        ensures homes { homes rows.new ≡ slice_set (homes rows.old) i 0 }
        ensures rests { rests rows.new ≡ rests rows.old }
        ensures frames { map frame self.new.all ≡ map frame self.old.all }
    {
        self.all[class].leave(rows, stand, i);
    }

    // Moves a row of a list of a class to the front of that list.
    pub fn refresh(&mut self, rows: &mut [Row], class: usize, stand: Stand, i: u32)
        requires class { class < 33 }
        requires within { i < length rows.old }
        requires lists { ∥ ((ls : ℕ → List ℕ) × Family self.old.all rows.old ls) ∥₁ }
        requires home { slice_index (homes rows.old) i ≡ list_of stand class }
        ensures lists { (ls : ℕ → List ℕ) → Family self.old.all rows.old ls → Family self.new.all rows.new (to_front i (list_of stand class) ls) }
        ensures homes { homes rows.new ≡ homes rows.old }
        ensures rests { rests rows.new ≡ rests rows.old }
        ensures frames { map frame self.new.all ≡ map frame self.old.all }
    {
        self.all[class].refresh(rows, stand, i);
    }
}

impl Classes {
    // Takes a row from one list of its class to the front of another.
    pub fn shift(&mut self, rows: &mut [Row], class: usize, from: Stand, to: Stand, i: u32)
        requires class { class < 33 }
        requires within { i < length rows.old }
        requires room { count_at self.old.all class to + 1 < 2 ^ 32 }
        requires lists { ∥ ((ls : ℕ → List ℕ) × Family self.old.all rows.old ls) ∥₁ }
        requires home { slice_index (homes rows.old) i ≡ list_of from class }
        ensures lists { (ls : ℕ → List ℕ) → Family self.old.all rows.old ls → Family self.new.all rows.new (shift i (list_of from class) (list_of to class) ls) }
        ensures homes { homes rows.new ≡ slice_set (homes rows.old) i (list_of to class) }
        ensures rests { rests rows.new ≡ rests rows.old }
        ensures frames { map frame self.new.all ≡ map frame self.old.all }
    {
        self.leave(rows, class, from, i);
        self.enter(rows, class, to, i);
    }

    // Puts rows that are in no list, from the row `first` on, among the free chunks of a class.
    pub fn stock(&mut self, rows: &mut [Row], class: usize, first: u32, chunks: u32)
        requires class { class < 33 }
        requires within { first + chunks ≤ length rows.old }
        requires few { first + chunks < 2 ^ 32 }
        requires room { count_at self.old.all class Free + chunks < 2 ^ 32 }
        requires lists { ∥ ((ls : ℕ → List ℕ) × Family self.old.all rows.old ls) ∥₁ }
        requires homeless { (k : ℕ) → k < chunks → slice_index (homes rows.old) (first + k) ≡ 0 }
        ensures lists { (ls : ℕ → List ℕ) → Family self.old.all rows.old ls → Family self.new.all rows.new (stocked first chunks (free_of class) ls) }
        ensures homes { homes rows.new ≡ filled first chunks (free_of class) (homes rows.old) }
        ensures rests { rests rows.new ≡ rests rows.old }
        ensures frames { map frame self.new.all ≡ map frame self.old.all }
    {
        for i in first..first + chunks {
            self.enter(rows, class, Stand::Free, i);
        }
    }
}
