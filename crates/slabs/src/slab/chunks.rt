//! Chunks that are free, granted and returned, and records that leave or move.

ghost use Rattle.std.specs.Prelude.{◌≡◌, ℕ, ◌<◌, ◌≤◌, List, ◌∷◌, ◌++◌, MatchOption, slice_index};
ghost use Rattle.std.specs.Option.{option_map};
ghost use Rattle.recency.specs.Lists.{foremost, rearmost};
ghost use Rattle.slabs.specs.Rows.{rests};
ghost use Rattle.slabs.specs.Lists.{free_of, granted_of, held_of, list_of, to_front};
ghost use Rattle.slabs.specs.Layouts.{class_at};
ghost use Rattle.slabs.specs.Slabs.{rows_of, homes_of, spans_of, layout, Lists, Sound, Shifted, Reordered, Taken, Holds, Granted, Tells};

use super::{ROWS_PER_PAGE, Slab};
use crate::class::Stand;
use crate::grant::Grant;

impl Slab {
    // Takes a row from one list of its class to the front of another.
    pub(super) fn shift(&mut self, class: usize, from: Stand, to: Stand, i: u32)
        requires sound { ∥ Sound self.old ∥₁ }
        requires home { slice_index (homes_of self.old) i ≡ list_of from class }
        requires fits { list_of to class ≡ held_of class → slice_index (spans_of (rows_of self.old)) i ≤ slice_index (layout self.old).sizes class }
        ensures sound { ∥ Sound self.new ∥₁ }
        ensures shifted { Shifted self.old self.new i (list_of from class) (list_of to class) }
        ensures rests { rests (rows_of self.new) ≡ rests (rows_of self.old) }
    {
        self.classes.shift(&mut self.rows, class, from, to, i);
    }

    // The row at the front of a list of a class, if there is one.
    fn first(&self, class: usize, stand: Stand) -> Option<u32>
        requires { ∥ Sound self.now ∥₁ }
        ensures { (ls : ℕ → List ℕ) → Lists self.now ls → result ≡ foremost (ls (list_of stand class)) }
    {
        self.classes.all.get(class)?.at(stand).list.front()
    }

    /// Grants a free chunk of a class, if it has one.
    pub fn take(&mut self, class: usize) -> Option<Grant>
        requires { ∥ Sound self.old ∥₁ }
        ensures sound { ∥ Sound self.new ∥₁ }
        ensures found { (ls : ℕ → List ℕ) → Lists self.old ls → option_map (λ grant. grant.row) result ≡ foremost (ls (free_of class)) }
        ensures taken { MatchOption result (self.new ≡ self.old) (λ grant. Taken self.old self.new class grant) }
        ensures rests { rests (rows_of self.new) ≡ rests (rows_of self.old) }
    {
        let row = self.first(class, Stand::Free)?;
        self.shift(class, Stand::Free, Stand::Granted, row);
        Some(Grant { row, class })
    }

    /// Returns a grant: its chunk is free again.
    pub fn give_back(&mut self, grant: Grant)
        requires sound { ∥ Sound self.old ∥₁ }
        requires granted { Granted self.old grant }
        ensures sound { ∥ Sound self.new ∥₁ }
        ensures returned { Shifted self.old self.new grant.row (granted_of grant.class) (free_of grant.class) }
        ensures rests { rests (rows_of self.new) ≡ rests (rows_of self.old) }
    {
        let Grant { row, class } = grant;
        self.shift(class, Stand::Granted, Stand::Free, row);
    }

    /// Removes a record: its chunk is free.
    pub fn remove(&mut self, i: u32)
        requires sound { ∥ Sound self.old ∥₁ }
        requires held { Holds self.old i }
        ensures sound { ∥ Sound self.new ∥₁ }
        ensures removed { Shifted self.old self.new i (held_of (class_at (layout self.old) i)) (free_of (class_at (layout self.old) i)) }
        ensures rests { rests (rows_of self.new) ≡ rests (rows_of self.old) }
    {
        let class = self.class_of(i);
        self.shift(class, Stand::Held, Stand::Free, i);
    }

    /// Moves a record to the front of its class.
    pub fn move_to_front(&mut self, i: u32)
        requires sound { ∥ Sound self.old ∥₁ }
        requires held { Holds self.old i }
        ensures sound { ∥ Sound self.new ∥₁ }
        ensures moved { Reordered self.old self.new (to_front i (held_of (class_at (layout self.old) i))) }
    {
        let class = self.class_of(i);
        self.classes.refresh(&mut self.rows, class, Stand::Held, i);
    }

    // `rearmost` and `foremost` are the two ends of a list, as `back` and `front` are: one function for both would take a flag.
    /// The record at the back of a class, if it has one.
    pub fn rearmost(&self, class: usize) -> Option<u32>
        requires { ∥ Sound self.now ∥₁ }
        ensures { (ls : ℕ → List ℕ) → Lists self.now ls → result ≡ rearmost (ls (held_of class)) }
    {
        self.classes.all.get(class)?.at(Stand::Held).list.back()
    }

    /// The record at the front of a class, if it has one.
    pub fn foremost(&self, class: usize) -> Option<u32>
        requires { ∥ Sound self.now ∥₁ }
        ensures { (ls : ℕ → List ℕ) → Lists self.now ls → result ≡ foremost (ls (held_of class)) }
    {
        self.first(class, Stand::Held)
    }

    /// The record ahead of one in its class, towards the front: a walk from the back goes on here.
    pub fn ahead_of(&self, i: u32) -> Option<u32>
        requires sound { ∥ Sound self.now ∥₁ }
        requires held { Holds self.now i }
        ensures { (ls : ℕ → List ℕ) → Lists self.now ls → (a b : List ℕ) → ls (held_of (class_at (layout self.now) i)) ≡ a ++ i ∷ b → result ≡ rearmost a }
    {
        recency::ahead_of(&self.rows, i)
    }

    /// The class of a record, if the row holds one.
    pub fn class_held(&self, i: u32) -> Option<usize>
        requires { ∥ Sound self.now ∥₁ }
        ensures { Tells self.now i result (λ class. (class ≡ class_at (layout self.now) i) × (class < 33)) }
    {
        self.holds(i).then(|| self.class_of(i))
    }

    // The class of the page of a row, 0 where no class has it.
    pub(super) fn class_of(&self, i: u32) -> usize
        requires sound { ∥ Sound self.now ∥₁ }
        ensures value { result ≡ class_at (layout self.now) i }
        ensures few { result < 33 }
    {
        self.owners
            .get(i as usize / ROWS_PER_PAGE)
            .map_or(0, |class| *class as usize)
    }
}
