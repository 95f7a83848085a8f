//! A doubly linked list over rows that their owner holds: the front is what was used last.
//! A row's place in the list is in the row, so a list allocates nothing and each step takes constant time.
#![tactic(auto)]

ghost use Rattle.std.specs.Prelude.{◌≡◌, ℕ, ◌+◌, ◌<◌, ◌≤◌, List, [], ◌∷◌, ◌++◌, map, length, if◌then◌else◌, Some, None, ◌≢◌, nat_eq, slice_index_or, slice_set};
ghost use Rattle.recency.specs.Numbers.{none, count, without, Apart};
ghost use Rattle.recency.specs.Lists.{Listed, Reads, foremost, rearmost};

/// The number that stands for no row. Rows are memory that their owner hands over: a link takes four bytes of each, and
/// an `Option<u32>` would take eight.
pub const NONE: u32 = u32::MAX;

/// A row that can be in one list at a time: it holds the numbers of its neighbours, and no boxes, since a list has no
/// heap of its own.
pub trait Linked {
    ghost next_of: { Self → ℕ };

    ghost prev_of: { Self → ℕ };
    // the row but for its two links
    ghost bare: { Self → Self };

    fn next(&self) -> u32
        ensures { result ≡ next_of self.now };

    fn prev(&self) -> u32
        ensures { result ≡ prev_of self.now };

    fn set_next(&mut self, to: u32)
        ensures aimed { next_of self.new ≡ to }
        ensures other { prev_of self.new ≡ prev_of self.old }
        ensures rest { bare self.new ≡ bare self.old };

    fn set_prev(&mut self, to: u32)
        ensures aimed { prev_of self.new ≡ to }
        ensures other { next_of self.new ≡ next_of self.old }
        ensures rest { bare self.new ≡ bare self.old };

    ghost whole: { (x y : Self) → next_of x ≡ next_of y → prev_of x ≡ prev_of y → bare x ≡ bare y → x ≡ y };
}

/// The two ends of a list of rows.
#[derive(Clone, Copy)]
pub struct RecencyList {
    front: u32,
    back: u32,
}

// Rows are lent to each call, so what ties a list to them stands at the calls: no type holds both.
impl RecencyList {
    // Has the row `at` name `to` as its next one. What comes next at NONE is the front of the list.
    #[tactic(auto, using(crate::proofs::Columns::column_set, crate::proofs::Columns::column_kept))]
    fn aim_next<R: Linked>(&mut self, rows: &mut [R], at: u32, to: u32)
        requires few { length rows.old ≤ none }
        requires within { (at ≢ none) → at < length rows.old }
        ensures front { self.new.front ≡ (if nat_eq at none then to else self.old.front) }
        ensures back { self.new.back ≡ self.old.back }
        ensures aimed { map R.next_of rows.new ≡ slice_set (map R.next_of rows.old) at to }
        ensures other { map R.prev_of rows.new ≡ map R.prev_of rows.old }
        ensures rest { map R.bare rows.new ≡ map R.bare rows.old }
    {
        if at == NONE {
            self.front = to;
        } else {
            rows[at as usize].set_next(to);
        }
    }

    // Has the row `at` name `to` as its previous one. What comes before NONE is the back of the list.
    // It mirrors `aim_next`: one function for both sides would test the side here and in each clause, which is no plainer.
    #[tactic(auto, using(crate::proofs::Columns::column_set, crate::proofs::Columns::column_kept))]
    fn aim_prev<R: Linked>(&mut self, rows: &mut [R], at: u32, to: u32)
        requires few { length rows.old ≤ none }
        requires within { (at ≢ none) → at < length rows.old }
        ensures back { self.new.back ≡ (if nat_eq at none then to else self.old.back) }
        ensures front { self.new.front ≡ self.old.front }
        ensures aimed { map R.prev_of rows.new ≡ slice_set (map R.prev_of rows.old) at to }
        ensures other { map R.next_of rows.new ≡ map R.next_of rows.old }
        ensures rest { map R.bare rows.new ≡ map R.bare rows.old }
    {
        if at == NONE {
            self.back = to;
        } else {
            rows[at as usize].set_prev(to);
        }
    }

    // Makes two rows neighbours; NONE stands for the end of the list on either side.
    fn join<R: Linked>(&mut self, rows: &mut [R], ahead: u32, behind: u32)
        requires few { length rows.old ≤ none }
        requires ahead { (ahead ≢ none) → ahead < length rows.old }
        requires behind { (behind ≢ none) → behind < length rows.old }
        ensures front { self.new.front ≡ (if nat_eq ahead none then behind else self.old.front) }
        ensures back { self.new.back ≡ (if nat_eq behind none then ahead else self.old.back) }
        ensures nexts { map R.next_of rows.new ≡ slice_set (map R.next_of rows.old) ahead behind }
        ensures prevs { map R.prev_of rows.new ≡ slice_set (map R.prev_of rows.old) behind ahead }
        ensures rest { map R.bare rows.new ≡ map R.bare rows.old }
    {
        self.aim_next(rows, ahead, behind);
        self.aim_prev(rows, behind, ahead);
    }

    /// A list with no rows.
    pub fn new() -> RecencyList
        ensures { (next prev : List ℕ) → length next ≤ none → Listed result.front result.back next prev [] }
    {
        RecencyList {
            front: NONE,
            back: NONE,
        }
    }

    /// The row at the front, if there is one.
    pub fn front(&self) -> Option<u32>
        ensures { (next prev ids : List ℕ) → Listed self.now.front self.now.back next prev ids → result ≡ foremost ids }
    {
        row_at(self.front)
    }

    /// The row at the back, if there is one: a walk from the back begins here, and goes on by `ahead_of`.
    pub fn back(&self) -> Option<u32>
        ensures { (next prev ids : List ℕ) → Listed self.now.front self.now.back next prev ids → result ≡ rearmost ids }
    {
        row_at(self.back)
    }

    /// Puts a row that is not in the list at its front.
    pub fn push_front<R: Linked>(&mut self, rows: &mut [R], i: u32)
        requires within { i < length rows.old }
        requires outside { ∥ ((ids : List ℕ) × Reads R.next_of R.prev_of self.old rows.old ids × (count i ids ≡ 0)) ∥₁ }
        ensures listed { (ids : List ℕ) → Reads R.next_of R.prev_of self.old rows.old ids → count i ids ≡ 0 → Reads R.next_of R.prev_of self.new rows.new (i ∷ ids) }
        ensures rest { map R.bare rows.new ≡ map R.bare rows.old }
        ensures outside { (ids : List ℕ) → Reads R.next_of R.prev_of self.old rows.old ids → (k : ℕ) (d : R) → count k (i ∷ ids) ≡ 0 → slice_index_or rows.new k d ≡ slice_index_or rows.old k d }
        ensures others { (ids : List ℕ) → Reads R.next_of R.prev_of self.old rows.old ids → (other : RecencyList) (mine : List ℕ) → Reads R.next_of R.prev_of other rows.old mine → Apart (i ∷ ids) mine → Reads R.next_of R.prev_of other rows.new mine }
    {
        let old = self.front;
        self.join(rows, i, old);
        self.join(rows, NONE, i);
    }

    /// Takes a row out of the list.
    pub fn unlink<R: Linked>(&mut self, rows: &mut [R], i: u32)
        requires within { i < length rows.old }
        requires inside { ∥ ((ids : List ℕ) × Reads R.next_of R.prev_of self.old rows.old ids × (count i ids ≡ 1)) ∥₁ }
        ensures listed { (ids : List ℕ) → Reads R.next_of R.prev_of self.old rows.old ids → count i ids ≡ 1 → Reads R.next_of R.prev_of self.new rows.new (without i ids) }
        ensures rest { map R.bare rows.new ≡ map R.bare rows.old }
        ensures outside { (ids : List ℕ) → Reads R.next_of R.prev_of self.old rows.old ids → count i ids ≡ 1 → (k : ℕ) (d : R) → count k ids ≡ 0 → slice_index_or rows.new k d ≡ slice_index_or rows.old k d }
        ensures others { (ids : List ℕ) → Reads R.next_of R.prev_of self.old rows.old ids → count i ids ≡ 1 → (other : RecencyList) (mine : List ℕ) → Reads R.next_of R.prev_of other rows.old mine → Apart ids mine → Reads R.next_of R.prev_of other rows.new mine }
    {
        let ahead = rows[i as usize].prev();
        let behind = rows[i as usize].next();
        self.join(rows, ahead, behind);
    }

    /// Moves a row of the list to its front.
    pub fn move_to_front<R: Linked>(&mut self, rows: &mut [R], i: u32)
        requires within { i < length rows.old }
        requires inside { ∥ ((ids : List ℕ) × Reads R.next_of R.prev_of self.old rows.old ids × (count i ids ≡ 1)) ∥₁ }
        ensures listed { (ids : List ℕ) → Reads R.next_of R.prev_of self.old rows.old ids → count i ids ≡ 1 → Reads R.next_of R.prev_of self.new rows.new (i ∷ without i ids) }
        ensures rest { map R.bare rows.new ≡ map R.bare rows.old }
        ensures outside { (ids : List ℕ) → Reads R.next_of R.prev_of self.old rows.old ids → count i ids ≡ 1 → (k : ℕ) (d : R) → count k ids ≡ 0 → slice_index_or rows.new k d ≡ slice_index_or rows.old k d }
        ensures others { (ids : List ℕ) → Reads R.next_of R.prev_of self.old rows.old ids → count i ids ≡ 1 → (other : RecencyList) (mine : List ℕ) → Reads R.next_of R.prev_of other rows.old mine → Apart ids mine → Reads R.next_of R.prev_of other rows.new mine }
    {
        if self.front != i {
            self.unlink(rows, i);
            self.push_front(rows, i);
        }
    }
}

// The row with this number, unless it is the one that stands for no row.
fn row_at(number: u32) -> Option<u32>
    ensures { result ≡ (if nat_eq number none then None else Some number) }
{
    if number == NONE { None } else { Some(number) }
}

/// The row ahead of a row of a list, towards the front, if there is one.
pub fn ahead_of<R: Linked>(rows: &[R], i: u32) -> Option<u32>
    requires { i < length rows.now }
    ensures { (list : RecencyList) (a b : List ℕ) → Reads R.next_of R.prev_of list rows.now (a ++ i ∷ b) → result ≡ rearmost a }
{
    let ahead = rows[i as usize].prev();
    row_at(ahead)
}

/// The row behind a row of a list, towards the back, if there is one. The two directions have names of their own, as the
/// two ends have: with a parameter for the side each clause would hold a case for each.
pub fn behind<R: Linked>(rows: &[R], i: u32) -> Option<u32>
    requires { i < length rows.now }
    ensures { (list : RecencyList) (a b : List ℕ) → Reads R.next_of R.prev_of list rows.now (a ++ i ∷ b) → result ≡ foremost b }
{
    let behind = rows[i as usize].next();
    row_at(behind)
}
