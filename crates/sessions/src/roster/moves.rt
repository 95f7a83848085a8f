//! A row's way from one list to another, and to the front of its own.

ghost use Rattle.std.specs.Prelude.{◌≡◌, ℕ, ◌<◌, List, ◌∷◌, map, length};
ghost use Rattle.recency.specs.Numbers.{count, without};
ghost use Rattle.sessions.specs.Rows.{session_of};
ghost use Rattle.sessions.specs.Rosters.{Laid};

use crate::roster::Roster;
use crate::row::SessionRow;

impl Roster {
    // Takes a row out of the free ones.
    pub(super) fn take_free(&mut self, rows: &mut [SessionRow], i: u32)
        requires { ∥ ((slots : List ℕ) × (ids : List ℕ) × (free : List ℕ) × Laid self.old slots rows.old ids free × (count i free ≡ 1)) ∥₁ }
        ensures laid { (slots ids free : List ℕ) → Laid self.old slots rows.old ids free → count i free ≡ 1 → Laid self.new slots rows.new ids (without i free) }
        ensures said { map session_of rows.new ≡ map session_of rows.old }
        ensures callers { self.new.callers ≡ self.old.callers }
        ensures counted { self.new.count ≡ self.old.count }
    {
        self.free.unlink(rows, i);
    }

    // Puts a row that is in no list among the free ones.
    pub(super) fn put_free(&mut self, rows: &mut [SessionRow], i: u32)
        requires { ∥ ((slots : List ℕ) × (ids : List ℕ) × (free : List ℕ) × Laid self.old slots rows.old ids free × (i < length rows.old) × (count i ids ≡ 0) × (count i free ≡ 0)) ∥₁ }
        ensures laid { (slots ids free : List ℕ) → Laid self.old slots rows.old ids free → count i ids ≡ 0 → count i free ≡ 0 → Laid self.new slots rows.new ids (i ∷ free) }
        ensures said { map session_of rows.new ≡ map session_of rows.old }
        ensures callers { self.new.callers ≡ self.old.callers }
        ensures counted { self.new.count ≡ self.old.count }
    {
        self.free.push_front(rows, i);
    }

    // Puts a row that is in no list in front of the open sessions, and among the callers.
    pub(super) fn put_open(&mut self, slots: &mut [u32], rows: &mut [SessionRow], i: u32)
        requires { ∥ ((ids : List ℕ) × (free : List ℕ) × Laid self.old slots.old rows.old ids free × (i < length rows.old) × (count i ids ≡ 0) × (count i free ≡ 0)) ∥₁ }
        ensures laid { (ids free : List ℕ) → Laid self.old slots.old rows.old ids free → count i ids ≡ 0 → count i free ≡ 0 → Laid self.new slots.new rows.new (i ∷ ids) free }
        ensures said { map session_of rows.new ≡ map session_of rows.old }
        ensures callers { self.new.callers ≡ self.old.callers }
        ensures counted { self.new.count ≡ self.old.count }
    {
        self.callers.insert(slots, rows, i);
        self.open.push_front(rows, i);
    }

    // Takes a row out of the open sessions, and out of the callers.
    pub(super) fn take_open(&mut self, slots: &mut [u32], rows: &mut [SessionRow], i: u32)
        requires { ∥ ((ids : List ℕ) × (free : List ℕ) × Laid self.old slots.old rows.old ids free × (count i ids ≡ 1)) ∥₁ }
        ensures laid { (ids free : List ℕ) → Laid self.old slots.old rows.old ids free → count i ids ≡ 1 → Laid self.new slots.new rows.new (without i ids) free }
        ensures said { map session_of rows.new ≡ map session_of rows.old }
        ensures callers { self.new.callers ≡ self.old.callers }
        ensures counted { self.new.count ≡ self.old.count }
    {
        self.callers.remove(slots, rows, i);
        self.open.unlink(rows, i);
    }

    // Has an open session be the one in front.
    pub(super) fn put_in_front(&mut self, rows: &mut [SessionRow], i: u32)
        requires { ∥ ((slots : List ℕ) × (ids : List ℕ) × (free : List ℕ) × Laid self.old slots rows.old ids free × (count i ids ≡ 1)) ∥₁ }
        ensures laid { (slots ids free : List ℕ) → Laid self.old slots rows.old ids free → count i ids ≡ 1 → Laid self.new slots rows.new (i ∷ without i ids) free }
        ensures said { map session_of rows.new ≡ map session_of rows.old }
        ensures callers { self.new.callers ≡ self.old.callers }
        ensures counted { self.new.count ≡ self.old.count }
    {
        self.open.move_to_front(rows, i);
    }
}
