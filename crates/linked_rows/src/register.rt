//! A table of the rows that are held, for rows of any type that say themselves whether they are.

ghost use Rattle.std.specs.Prelude.{◌≡◌, ℕ, ◌<◌, ◌≤◌, true, false, cond, List, [], ◌∷◌, map, length, slice_index};
ghost use Rattle.recency.specs.Numbers.{none, count, without};
ghost use Rattle.linked_rows.specs.Registers.{Registered};

use chained::{Chained, Chains};

/// A row of a table that says whether it is held.
pub trait Marked: Chained {
    // 1 for a row that is held, and 0 for any other
    ghost mark_of: { Self → ℕ };
    // the row but for its mark and its link
    ghost rest_of: { Self → Self };

    fn is_held(&self) -> bool
        ensures { mark_of self.now ≡ cond result 1 0 };

    fn set_held(&mut self, held: bool)
        ensures marked { mark_of self.new ≡ cond held 1 0 }
        ensures link { Self.link_of self.new ≡ Self.link_of self.old }
        ensures hash { Self.hash_of self.new ≡ Self.hash_of self.old }
        ensures rest { rest_of self.new ≡ rest_of self.old };

    ghost mark_stays: { (x : Self) → mark_of x ≡ mark_of (Self.bare x) };

    ghost rest_stays: { (x : Self) → rest_of x ≡ rest_of (Self.bare x) };
}

/// A table of rows that are held, and how many they are. The rows and the slots lie with their owner, who lends them for
/// each call and may keep and copy the register beside them, so that it borrows neither.
#[derive(Clone, Copy)]
pub struct Register {
    pub chains: Chains,
    pub entries: u32,
}

impl Register {
    /// No row is held, over these slots and rows, whose marks it takes away.
    pub fn open<R: Marked>(heads: &mut [u32], rows: &mut [R]) -> Register
        requires least { 16 ≤ length heads.old }
        requires limit { length heads.old ≤ 16384 }
        requires few { length rows.old ≤ none }
        ensures held { Registered R.link_of R.hash_of R.mark_of result heads.new rows.new [] }
        ensures rows { length rows.new ≡ length rows.old }
    {
        for row in rows.iter_mut() {
            row.set_held(false);
        }
        Register {
            chains: Chains::open(heads),
            entries: 0,
        }
    }

    // Goes one step on with the table's growth, and starts it where it is due.
    fn grow<R: Marked>(&mut self, heads: &mut [u32], rows: &mut [R])
        requires { ∥ ((ids : List ℕ) × Registered R.link_of R.hash_of R.mark_of self.old heads.old rows.old ids) ∥₁ }
        ensures held { (ids : List ℕ) → Registered R.link_of R.hash_of R.mark_of self.old heads.old rows.old ids → Registered R.link_of R.hash_of R.mark_of self.new heads.new rows.new ids }
        ensures rest { map R.rest_of rows.new ≡ map R.rest_of rows.old }
    {
        self.chains.grow_after(heads, self.entries);
        self.chains.move_one(heads, rows);
    }

    // Holds a row that is not held.
    fn enter<R: Marked>(&mut self, heads: &mut [u32], rows: &mut [R], i: u32)
        requires within { i < length rows.old }
        requires outside { ∥ ((ids : List ℕ) × Registered R.link_of R.hash_of R.mark_of self.old heads.old rows.old ids × (count i ids ≡ 0)) ∥₁ }
        ensures held { (ids : List ℕ) → Registered R.link_of R.hash_of R.mark_of self.old heads.old rows.old ids → count i ids ≡ 0 → Registered R.link_of R.hash_of R.mark_of self.new heads.new rows.new (i ∷ ids) }
        ensures rest { map R.rest_of rows.new ≡ map R.rest_of rows.old }
    {
        self.chains.insert(heads, rows, i);
        rows[i as usize].set_held(true);
        self.entries = self.entries.saturating_add(1);
        self.grow(heads, rows);
    }

    // Lets a row go that is held.
    fn leave<R: Marked>(&mut self, heads: &mut [u32], rows: &mut [R], i: u32)
        requires within { i < length rows.old }
        requires inside { ∥ ((ids : List ℕ) × Registered R.link_of R.hash_of R.mark_of self.old heads.old rows.old ids × (count i ids ≡ 1)) ∥₁ }
        ensures held { (ids : List ℕ) → Registered R.link_of R.hash_of R.mark_of self.old heads.old rows.old ids → count i ids ≡ 1 → Registered R.link_of R.hash_of R.mark_of self.new heads.new rows.new (without i ids) }
        ensures rest { map R.rest_of rows.new ≡ map R.rest_of rows.old }
    {
        self.chains.remove(heads, rows, i);
        rows[i as usize].set_held(false);
        self.entries = self.entries.saturating_sub(1);
        self.grow(heads, rows);
    }

    /// Holds a row, or lets it go where it was held; says whether it is held now.
    pub fn toggle<R: Marked>(&mut self, heads: &mut [u32], rows: &mut [R], i: u32) -> bool
        requires within { i < length rows.old }
        requires sound { ∥ ((ids : List ℕ) × Registered R.link_of R.hash_of R.mark_of self.old heads.old rows.old ids) ∥₁ }
        ensures entered { result ≡ true → (ids : List ℕ) → Registered R.link_of R.hash_of R.mark_of self.old heads.old rows.old ids → Registered R.link_of R.hash_of R.mark_of self.new heads.new rows.new (i ∷ ids) }
        ensures left { result ≡ false → (ids : List ℕ) → Registered R.link_of R.hash_of R.mark_of self.old heads.old rows.old ids → Registered R.link_of R.hash_of R.mark_of self.new heads.new rows.new (without i ids) }
        ensures sound { ∥ ((ids : List ℕ) × Registered R.link_of R.hash_of R.mark_of self.new heads.new rows.new ids) ∥₁ }
        ensures was { slice_index (map R.mark_of rows.old) i ≡ cond result 0 1 }
        ensures rest { map R.rest_of rows.new ≡ map R.rest_of rows.old }
    {
        if rows[i as usize].is_held() {
            self.leave(heads, rows, i);
            false
        } else {
            self.enter(heads, rows, i);
            true
        }
    }
}
