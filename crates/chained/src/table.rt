//! The table: chains of rows, one for each slot.

ghost use Rattle.std.specs.Prelude.{◌≡◌, ℕ, ◌+◌, ◌<◌, ◌≤◌, cond, List, [], ◌∷◌, map, length, MatchOption, ◌≢◌, slice_index, slice_index_or, slice_set};
ghost use Rattle.recency.specs.Numbers.{none, count, without, Apart};
ghost use Rattle.chained.specs.Growth.{start, grow_after, move_one, slot};
ghost use Rattle.chained.specs.Chains.{Chain, Holds, Keeps, poured, size};
ghost use Rattle.chained.specs.Keys.{HasKey, NewKey, NoKey, OneRowAKey};

use crate::keys::Keyed;
use recency::NONE;

/// A row that can be in one table at a time: it keeps its key's hash, and the number of the next row of its chain. There
/// is no std map or box here: rows and slots are memory that their owner hands over, and a table takes no heap.
pub trait Chained {
    ghost link_of: { Self → ℕ };

    ghost hash_of: { Self → ℕ };
    // the row but for its link
    ghost bare: { Self → Self };

    fn link(&self) -> u32
        ensures { result ≡ link_of self.now };

    fn hash(&self) -> u32
        ensures { result ≡ hash_of self.now };

    fn set_link(&mut self, to: u32)
        ensures aimed { link_of self.new ≡ to }
        ensures rest { bare self.new ≡ bare self.old };

    ghost whole: { (x y : Self) → link_of x ≡ link_of y → bare x ≡ bare y → x ≡ y };

    ghost blind: { (x : Self) → hash_of x ≡ hash_of (bare x) };
}

/// The size of a table: `slots` slots are in use, and the first `unmoved` of them are old ones, still to be moved.
#[derive(Clone, Copy)]
pub struct Chains {
    slots: u32,
    unmoved: u32,
}

// Slots and rows are lent to each call, so what ties the table to them stands at the calls: no type holds all three.
impl Chains {
    /// An empty table over these slots.
    pub fn open(heads: &mut [u32]) -> Chains
        requires least { 16 ≤ length heads.old }
        requires limit { length heads.old ≤ 16384 }
        ensures starts { size result ≡ start }
        ensures empty { (link hash : List ℕ) → length link ≤ none → Holds (size result) heads.new link hash [] }
    {
        heads.fill(NONE);
        Chains {
            slots: 16,
            unmoved: 0,
        }
    }

    /// How many slots are in use, and how many old slots have still to be moved.
    pub fn size(&self) -> (u32, u32)
        ensures { result ≡ size self.now }
    {
        (self.slots, self.unmoved)
    }

    // The slot that a hash belongs to.
    fn slot_of(&self, hash: u32) -> u32
        requires { 16 ≤ self.now.slots }
        ensures { result ≡ slot (size self.now) hash }
    {
        if self.unmoved > 0 {
            let old = hash % (self.slots / 2);
            if old < self.unmoved {
                return old;
            }
        }
        hash % self.slots
    }

    /// Puts a row that is not in the table into it.
    pub fn insert<R: Chained>(&self, heads: &mut [u32], rows: &mut [R], i: u32)
        requires within { i < length rows.old }
        requires outside { ∥ ((ids : List ℕ) × Keeps R.link_of R.hash_of self.now heads.old rows.old ids × (count i ids ≡ 0)) ∥₁ }
        ensures held { (ids : List ℕ) → Keeps R.link_of R.hash_of self.now heads.old rows.old ids → count i ids ≡ 0 → Keeps R.link_of R.hash_of self.now heads.new rows.new (i ∷ ids) }
        ensures rest { map R.bare rows.new ≡ map R.bare rows.old }
        ensures others { (k : ℕ) (d : R) → (k ≢ i) → slice_index_or rows.new k d ≡ slice_index_or rows.old k d }
        ensures past { (ids : List ℕ) → Keeps R.link_of R.hash_of self.now heads.old rows.old ids → count i ids ≡ 0 → (s : ℕ) → self.now.slots ≤ s → slice_index_or heads.new s none ≡ slice_index_or heads.old s none }
        ensures keys { (key_of : ℕ → R → List ℕ) (ids : List ℕ) → ((k : ℕ) (row : R) → key_of k row ≡ key_of k (R.bare row)) → NewKey key_of rows.old ids i → OneRowAKey key_of rows.old ids → OneRowAKey key_of rows.new (i ∷ ids) }
    {
        let home = self.slot_of(hash_of(rows, i)) as usize;
        aim(rows, i, heads[home]);
        heads[home] = i;
    }

    /// Takes a row out of the table.
    pub fn remove<R: Chained>(&self, heads: &mut [u32], rows: &mut [R], i: u32)
        requires within { i < length rows.old }
        requires inside { ∥ ((ids : List ℕ) × Keeps R.link_of R.hash_of self.now heads.old rows.old ids × (count i ids ≡ 1)) ∥₁ }
        ensures held { (ids : List ℕ) → Keeps R.link_of R.hash_of self.now heads.old rows.old ids → count i ids ≡ 1 → Keeps R.link_of R.hash_of self.now heads.new rows.new (without i ids) }
        ensures rest { map R.bare rows.new ≡ map R.bare rows.old }
        ensures outside { (ids : List ℕ) → Keeps R.link_of R.hash_of self.now heads.old rows.old ids → count i ids ≡ 1 → (k : ℕ) (d : R) → count k ids ≡ 0 → slice_index_or rows.new k d ≡ slice_index_or rows.old k d }
        ensures past { (ids : List ℕ) → Keeps R.link_of R.hash_of self.now heads.old rows.old ids → count i ids ≡ 1 → (s : ℕ) → self.now.slots ≤ s → slice_index_or heads.new s none ≡ slice_index_or heads.old s none }
    {
        let home = self.slot_of(hash_of(rows, i)) as usize;
        let behind = link_of(rows, i);
        let first = heads[home];
        if first == i {
            heads[home] = behind;
        } else {
            let ahead = ahead_of(rows, first, i);
            aim(rows, ahead, behind);
        }
    }

    /// The row that has this key, if there is one.
    pub fn find<R: Chained, K, C: Keyed<R, K>>(
        &self,
        heads: &[u32],
        rows: &[R],
        keys: &C,
        key: &K,
    ) -> Option<u32>
        requires { ∥ ((ids : List ℕ) × Keeps R.link_of R.hash_of self.now heads.now rows.now ids) ∥₁ }
        ensures { (ids : List ℕ) → Keeps R.link_of R.hash_of self.now heads.now rows.now ids → MatchOption result (NoKey (C.key_of keys.now) R.hash_of C.hashed rows.now ids (C.wanted key.now)) (λ i. (count i ids ≡ 1) × HasKey (C.key_of keys.now) rows.now i (C.wanted key.now)) }
    {
        let hash = keys.hash(key);
        let home = self.slot_of(hash) as usize;
        let mut at = heads[home];
        // a chain is links in rows that their owner hands over, and no slice: each walk follows them
        while at != NONE {
            let row = &rows[at as usize];
            // the hashes differ far more often than not, and are at hand
            if row.hash() == hash && keys.has_key(at, row, key) {
                return Some(at);
            }
            at = row.link();
        }
        None
    }

    /// Starts to double the slots where the rule of growth asks for it: the caller says how many rows are held.
    pub fn grow_after(&mut self, heads: &[u32], entries: u32)
        requires { ∥ ((link : List ℕ) × (hash : List ℕ) × (ids : List ℕ) × Holds (size self.old) heads.now link hash ids) ∥₁ }
        ensures grown { size self.new ≡ grow_after entries (length heads.now) (size self.old) }
        ensures held { (link hash ids : List ℕ) → Holds (size self.old) heads.now link hash ids → Holds (size self.new) heads.now link hash ids }
    {
        let full = 3 * u64::from(self.slots) < 2 * u64::from(entries);
        if full && self.unmoved == 0 && 2 * self.slots as usize <= heads.len() {
            self.unmoved = self.slots;
            self.slots = 2 * self.slots;
        }
    }

    /// Moves the rows of one old slot to where they belong among twice as many, if an old slot is left.
    pub fn move_one<R: Chained>(&mut self, heads: &mut [u32], rows: &mut [R])
        requires { ∥ ((ids : List ℕ) × Keeps R.link_of R.hash_of self.old heads.old rows.old ids) ∥₁ }
        ensures moved { size self.new ≡ move_one (size self.old) }
        ensures held { (ids : List ℕ) → Keeps R.link_of R.hash_of self.old heads.old rows.old ids → Keeps R.link_of R.hash_of self.new heads.new rows.new ids }
        ensures rest { map R.bare rows.new ≡ map R.bare rows.old }
        ensures past { (ids : List ℕ) → Keeps R.link_of R.hash_of self.old heads.old rows.old ids → (s : ℕ) → self.old.slots ≤ s → slice_index_or heads.new s none ≡ slice_index_or heads.old s none }
    {
        if self.unmoved > 0 {
            self.unmoved -= 1;
            let old = self.unmoved as usize;
            let first = heads[old];
            heads[old] = NONE;
            self.insert_all(heads, rows, first);
        }
    }

    // Puts the rows of a chain that was cut off the table into it again, one by one.
    fn insert_all<R: Chained>(&self, heads: &mut [u32], rows: &mut [R], first: u32)
        requires { ∥ ((ids : List ℕ) × (rest : List ℕ) × Keeps R.link_of R.hash_of self.now heads.old rows.old ids × Chain (map R.link_of rows.old) first rest × Apart rest ids) ∥₁ }
        ensures held { (ids rest : List ℕ) → Keeps R.link_of R.hash_of self.now heads.old rows.old ids → Chain (map R.link_of rows.old) first rest → Apart rest ids → Keeps R.link_of R.hash_of self.now heads.new rows.new (poured rest ids) }
        ensures rest { map R.bare rows.new ≡ map R.bare rows.old }
    {
        let mut at = first;
        while at != NONE {
            let next = link_of(rows, at);
            self.insert(heads, rows, at);
            at = next;
        }
    }
}

// The link of a row. One reader for this and the hash, told by a closure which, could state no column.
#[tactic(auto, using(recency::proofs::Columns::column_at))]
fn link_of<R: Chained>(rows: &[R], i: u32) -> u32
    requires { i < length rows.now }
    ensures { result ≡ slice_index_or (map R.link_of rows.now) i none }
{
    rows[i as usize].link()
}

// The hash of a row.
#[tactic(auto, using(recency::proofs::Columns::column_at))]
fn hash_of<R: Chained>(rows: &[R], i: u32) -> u32
    requires { i < length rows.now }
    ensures { result ≡ slice_index (map R.hash_of rows.now) i }
{
    rows[i as usize].hash()
}

// Aims a row's link, and leaves the rest of it.
#[tactic(auto, using(recency::proofs::Columns::column_set, recency::proofs::Columns::column_kept, recency::proofs::Columns::column_of_rest))]
fn aim<R: Chained>(rows: &mut [R], i: u32, to: u32)
    requires { i < length rows.old }
    ensures links { map R.link_of rows.new ≡ slice_set (map R.link_of rows.old) i to }
    ensures hashes { map R.hash_of rows.new ≡ map R.hash_of rows.old }
    ensures rest { map R.bare rows.new ≡ map R.bare rows.old }
    ensures others { (k : ℕ) (d : R) → (k ≢ i) → slice_index_or rows.new k d ≡ slice_index_or rows.old k d }
{
    rows[i as usize].set_link(to);
}

// The row that names the row i as the next one, in a chain that has i, but not at its start.
fn ahead_of<R: Chained>(rows: &[R], first: u32, i: u32) -> u32
    requires few { length rows.now ≤ none }
    requires later { first ≢ i }
    requires inside { ∥ ((chain : List ℕ) × Chain (map R.link_of rows.now) first chain × ((k : ℕ) → count k chain ≤ 1) × (count i chain ≡ 1)) ∥₁ }
    ensures within { result < length rows.now }
    ensures names { slice_index_or (map R.link_of rows.now) result none ≡ i }
    ensures among { (chain : List ℕ) → Chain (map R.link_of rows.now) first chain → ((k : ℕ) → count k chain ≤ 1) → count i chain ≡ 1 → count result chain ≡ 1 }
{
    let mut at = first;
    let mut next = link_of(rows, at);
    while next != i {
        at = next;
        next = link_of(rows, at);
    }
    at
}
