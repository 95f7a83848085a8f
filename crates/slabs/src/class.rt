//! A size class: how its pages are cut, and the lists of its chunks.

ghost use Rattle.std.specs.Prelude.{◌≡◌, ℕ, ◌+◌, ◌-◌, ◌*◌, ◌^◌, ◌<◌, List, ◌∷◌, map, length, ◌≢◌, slice_index_or, slice_set};
ghost use Rattle.plan.specs.Plans.{plan_sizes};
ghost use Rattle.recency.specs.Numbers.{count, without, Apart};
ghost use Rattle.slabs.specs.Rows.{homes, rests, RowsRead};
ghost use Rattle.slabs.specs.Lists.{list_of};
ghost use Rattle.slabs.specs.Classes.{place, at_stand, no_chunks, frame, Fresh};

use crate::row::Row;
use plan::Plan;
use recency::RecencyList;

/// What a chunk is to its class.
#[derive(Clone, Copy)]
pub enum Stand {
    Free,
    Granted,
    Held,
}

/// The rows of some chunks in a list, and how many they are.
#[derive(Clone, Copy)]
pub struct ChunkList {
    pub list: RecencyList,
    pub count: u32,
}

/// How a class cuts its pages, and its chunks by their stand.
#[derive(Clone, Copy)]
pub struct Class {
    pub size: u32,
    pub chunks: u32,
    pub pages: u32,
    pub lists: [ChunkList; 3],
}

impl Stand {
    // Where a class keeps the chunks of this stand.
    pub fn place(self) -> usize
        ensures { result ≡ place self }
    {
        self as usize
    }
}

/// The number of the list of a class's chunks of a stand.
pub fn number(stand: Stand, class: usize) -> u32
    requires { class < 33 }
    ensures { result ≡ list_of stand class }
{
    (3 * class + stand.place() + 1) as u32
}

// Has a row name the list that it is in.
fn set_home(rows: &mut [Row], i: u32, home: u32)
    requires { i < length rows.old }
    ensures next { map (λ r. r.next) rows.new ≡ map (λ r. r.next) rows.old }
    ensures prev { map (λ r. r.prev) rows.new ≡ map (λ r. r.prev) rows.old }
    ensures homes { homes rows.new ≡ slice_set (homes rows.old) i home }
    ensures rests { rests rows.new ≡ rests rows.old }
{
    rows[i as usize].home = home;
}

impl Class {
    // A class of a plan with no pages yet, or no class where the plan has none of that number.
    pub fn planned(plan: &Plan, class: usize) -> Class
        ensures { Fresh (plan_sizes plan.now) class result }
    {
        let none = ChunkList {
            list: RecencyList::new(),
            count: 0,
        };
        Class {
            size: plan.size(class).unwrap_or(0),
            chunks: plan.chunks_per_page(class).unwrap_or(0),
            pages: 0,
            lists: [none; 3],
        }
    }

    // The chunks of a stand.
    pub fn at(&self, stand: Stand) -> &ChunkList
        ensures { result.now ≡ at_stand self.now stand }
    {
        &self.lists[stand.place()]
    }

    // Puts a row that is in no list of this class at the front of the list of a stand; `home` is the list's number.
    pub fn enter(&mut self, rows: &mut [Row], stand: Stand, i: u32, home: u32)
        requires within { i < length rows.old }
        requires room { (at_stand self.old stand).count + 1 < 2 ^ 32 }
        requires outside { ∥ ((ids : List ℕ) × RowsRead (at_stand self.old stand).list rows.old ids × (count i ids ≡ 0)) ∥₁ }
        ensures listed { (ids : List ℕ) → RowsRead (at_stand self.old stand).list rows.old ids → count i ids ≡ 0 → RowsRead (at_stand self.new stand).list rows.new (i ∷ ids) }
        ensures others { (ids : List ℕ) → RowsRead (at_stand self.old stand).list rows.old ids → (other : RecencyList) (mine : List ℕ) → RowsRead other rows.old mine → Apart (i ∷ ids) mine → RowsRead other rows.new mine }
        ensures counted { (at_stand self.new stand).count ≡ (at_stand self.old stand).count + 1 }
        ensures kept { (k : ℕ) → (k ≢ place stand) → slice_index_or self.new.lists k no_chunks ≡ slice_index_or self.old.lists k no_chunks }
        ensures frame { frame self.new ≡ frame self.old }
        ensures homes { homes rows.new ≡ slice_set (homes rows.old) i home }
        ensures rests { rests rows.new ≡ rests rows.old }
    {
        let chunks = &mut self.lists[stand.place()];
        chunks.list.push_front(rows, i);
        chunks.count += 1;
        set_home(rows, i, home);
    }

    // Takes a row out of the list of a stand.
    pub fn leave(&mut self, rows: &mut [Row], stand: Stand, i: u32)
        requires within { i < length rows.old }
        requires some { 0 < (at_stand self.old stand).count }
        requires inside { ∥ ((ids : List ℕ) × RowsRead (at_stand self.old stand).list rows.old ids × (count i ids ≡ 1)) ∥₁ }
        ensures listed { (ids : List ℕ) → RowsRead (at_stand self.old stand).list rows.old ids → count i ids ≡ 1 → RowsRead (at_stand self.new stand).list rows.new (without i ids) }
        ensures others { (ids : List ℕ) → RowsRead (at_stand self.old stand).list rows.old ids → count i ids ≡ 1 → (other : RecencyList) (mine : List ℕ) → RowsRead other rows.old mine → Apart ids mine → RowsRead other rows.new mine }
        ensures counted { (at_stand self.new stand).count ≡ (at_stand self.old stand).count - 1 }
        ensures kept { (k : ℕ) → (k ≢ place stand) → slice_index_or self.new.lists k no_chunks ≡ slice_index_or self.old.lists k no_chunks }
        ensures frame { frame self.new ≡ frame self.old }
        ensures homes { homes rows.new ≡ slice_set (homes rows.old) i 0 }
        ensures rests { rests rows.new ≡ rests rows.old }
    {
        let chunks = &mut self.lists[stand.place()];
        chunks.list.unlink(rows, i);
        chunks.count -= 1;
        set_home(rows, i, 0);
    }

    // Moves a row of the list of a stand to its front.
    pub fn refresh(&mut self, rows: &mut [Row], stand: Stand, i: u32)
        requires within { i < length rows.old }
        requires inside { ∥ ((ids : List ℕ) × RowsRead (at_stand self.old stand).list rows.old ids × (count i ids ≡ 1)) ∥₁ }
        ensures listed { (ids : List ℕ) → RowsRead (at_stand self.old stand).list rows.old ids → count i ids ≡ 1 → RowsRead (at_stand self.new stand).list rows.new (i ∷ without i ids) }
        ensures others { (ids : List ℕ) → RowsRead (at_stand self.old stand).list rows.old ids → count i ids ≡ 1 → (other : RecencyList) (mine : List ℕ) → RowsRead other rows.old mine → Apart ids mine → RowsRead other rows.new mine }
        ensures counted { (at_stand self.new stand).count ≡ (at_stand self.old stand).count }
        ensures kept { (k : ℕ) → (k ≢ place stand) → slice_index_or self.new.lists k no_chunks ≡ slice_index_or self.old.lists k no_chunks }
        ensures frame { frame self.new ≡ frame self.old }
        ensures homes { homes rows.new ≡ homes rows.old }
        ensures rests { rests rows.new ≡ rests rows.old }
    {
        self.lists[stand.place()].list.move_to_front(rows, i);
    }
}
