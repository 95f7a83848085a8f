//! What is done with one session: entered, renewed, left.

ghost use Rattle.std.specs.Prelude.{◌≡◌, ℕ, List, ◌∷◌, map, length, None, slice_index_or};
ghost use Rattle.recency.specs.Numbers.{count, without};
ghost use Rattle.chained.specs.Chains.{size};
ghost use Rattle.chained.specs.Growth.{grow_after};
ghost use Rattle.model.specs.Calls.{of_caller, served};
ghost use Rattle.model.specs.Store.{first};
ghost use Rattle.sessions.specs.Rows.{session_of, session, sessions_at};
ghost use Rattle.sessions.specs.Rosters.{Placed, Shown};

use crate::roster::Roster;
use crate::row::{SessionRow, note};

impl Roster {
    /// Has a free row be the session of a caller that has none, in front of the others.
    pub fn enter(
        &mut self,
        slots: &mut [u32],
        rows: &mut [SessionRow],
        i: u32,
        caller: u32,
        second: u32,
    )
        requires { ∥ ((ids : List ℕ) × (free : List ℕ) × Placed self.old slots.old rows.old ids free × (count i free ≡ 1) × (first (of_caller caller) (sessions_at rows.old ids) ≡ None)) ∥₁ }
        ensures shown { (ids free : List ℕ) → Placed self.old slots.old rows.old ids free → count i free ≡ 1 → first (of_caller caller) (sessions_at rows.old ids) ≡ None → Shown self.new slots.new rows.new (served caller second (sessions_at rows.old ids)) }
        ensures grown { size self.new.callers ≡ grow_after self.new.count (length slots.old) (size self.old.callers) }
    {
        self.take_free(rows, i);
        note(rows, i, caller, second);
        self.put_open(slots, rows, i);
        self.count += 1;
        self.callers.grow_after(slots, self.count);
    }

    /// Has a caller's session be served at this second, and be the one in front.
    pub fn renew(&mut self, rows: &mut [SessionRow], i: u32, caller: u32, second: u32)
        requires { ∥ ((slots : List ℕ) × (ids : List ℕ) × (free : List ℕ) × Placed self.old slots rows.old ids free × (count i ids ≡ 1) × ((slice_index_or (map session_of rows.old) i (session 0 0)).caller ≡ caller)) ∥₁ }
        ensures shown { (slots ids free : List ℕ) → Placed self.old slots rows.old ids free → count i ids ≡ 1 → (slice_index_or (map session_of rows.old) i (session 0 0)).caller ≡ caller → Shown self.new slots rows.new (served caller second (sessions_at rows.old ids)) }
        ensures callers { self.new.callers ≡ self.old.callers }
    {
        note(rows, i, caller, second);
        self.put_in_front(rows, i);
    }

    /// Has the row of an open session be free.
    pub fn leave(&mut self, slots: &mut [u32], rows: &mut [SessionRow], i: u32)
        requires { ∥ ((ids : List ℕ) × (free : List ℕ) × Placed self.old slots.old rows.old ids free × (count i ids ≡ 1)) ∥₁ }
        ensures placed { (ids free : List ℕ) → Placed self.old slots.old rows.old ids free → count i ids ≡ 1 → Placed self.new slots.new rows.new (without i ids) (i ∷ free) }
        ensures said { map session_of rows.new ≡ map session_of rows.old }
        ensures callers { self.new.callers ≡ self.old.callers }
    {
        self.take_open(slots, rows, i);
        self.put_free(rows, i);
        self.count -= 1;
    }
}
