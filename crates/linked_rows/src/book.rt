//! A book of entries: those that are held are in a table, and in a list with the last used one in front.

ghost use Rattle.std.specs.Prelude.{◌≡◌, ℕ, ◌<◌, ◌≤◌, true, false, List, [], ◌∷◌, length};
ghost use Rattle.recency.specs.Numbers.{none, without};
ghost use Rattle.linked_rows.specs.Books.{Sound, used};

use crate::entry::Entry;
use crate::register::Register;
use recency::RecencyList;

#[derive(Clone, Copy)]
pub struct Book {
    pub table: Register,
    pub list: RecencyList,
}

impl Book {
    /// An empty book over these slots and rows, whose marks it takes away.
    pub fn open(heads: &mut [u32], rows: &mut [Entry]) -> Book
        requires least { 16 ≤ length heads.old }
        requires limit { length heads.old ≤ 16384 }
        requires few { length rows.old ≤ none }
        ensures { Sound result heads.new rows.new [] }
    {
        Book {
            table: Register::open(heads, rows),
            list: RecencyList::new(),
        }
    }

    /// Holds a row, or lets it go where it was held; says whether it is held now.
    pub fn toggle(&mut self, heads: &mut [u32], rows: &mut [Entry], i: u32) -> bool
        requires within { i < length rows.old }
        requires sound { ∥ ((ids : List ℕ) × Sound self.old heads.old rows.old ids) ∥₁ }
        ensures entered { result ≡ true → (ids : List ℕ) → Sound self.old heads.old rows.old ids → Sound self.new heads.new rows.new (i ∷ ids) }
        ensures left { result ≡ false → (ids : List ℕ) → Sound self.old heads.old rows.old ids → Sound self.new heads.new rows.new (without i ids) }
        ensures sound { ∥ ((ids : List ℕ) × Sound self.new heads.new rows.new ids) ∥₁ }
    {
        if self.table.toggle(heads, rows, i) {
            self.list.push_front(rows, i);
            true
        } else {
            self.list.unlink(rows, i);
            false
        }
    }

    /// Has a row be the last used one, if it is held.
    pub fn use_row(&mut self, rows: &mut [Entry], i: u32)
        requires within { i < length rows.old }
        requires sound { ∥ ((heads : List ℕ) × (ids : List ℕ) × Sound self.old heads rows.old ids) ∥₁ }
        ensures used { (heads ids : List ℕ) → Sound self.old heads rows.old ids → Sound self.new heads rows.new (used i ids) }
        ensures sound { (heads : List ℕ) → ∥ ((ids : List ℕ) × Sound self.old heads rows.old ids) ∥₁ → ∥ ((ids : List ℕ) × Sound self.new heads rows.new ids) ∥₁ }
    {
        if rows[i as usize].held {
            self.list.move_to_front(rows, i);
        }
    }
}
