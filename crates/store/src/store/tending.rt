//! What is counted and told of the store, and the work that its hash table has left.

ghost use Rattle.std.specs.Prelude.{◌≡◌, ℕ, ◌+◌, ◌^◌, ◌<◌, List, length, None, Option};
ghost use Rattle.slabs.specs.declared.grant.Grant.{Grant};
ghost use Rattle.model.specs.Setup.{Setup};
ghost use Rattle.model.specs.Store.{Store, everything, counted, move_slot};
ghost use Rattle.store.specs.declared.found.Found.{Found};
ghost use Rattle.store.specs.Showing.{Shows, Held, pages_of, counts_shown};

use super::RecordStore;
use crate::figures::Tally;

impl RecordStore {
    /// How many pages there are.
    pub fn pages(&self) -> u32
        ensures { result ≡ pages_of self.now }
    {
        self.records.pages()
    }

    /// Counts a key that was found, or missed.
    pub fn count_asked(&mut self, hit: bool)
        ensures pages { pages_of self.new ≡ pages_of self.old }
        ensures held { (found : Found) → Held self.old found → Held self.new found }
        ensures shown { (setup : Setup) (n : ℕ) (memory : List ℕ) (s : Store) → n < 2 ^ 63 → Shows setup n self.old memory None s → Shows setup (n + 1) self.new memory None (counted hit s) }
    {
        self.counts.asked(hit);
    }

    /// Moves one old slot of the hash table, if one is left.
    pub fn move_slot(&mut self)
        ensures pages { pages_of self.new ≡ pages_of self.old }
        ensures shown { (setup : Setup) (n : ℕ) (memory : List ℕ) (s : Store) → Shows setup n self.old memory None s → Shows setup n self.new memory None (move_slot s) }
    {
        self.records.move_slot();
    }

    /// The figures that stats tells of the records.
    pub fn figures(&self) -> Tally
        ensures { (setup : Setup) (n : ℕ) (memory : List ℕ) (out : Option Grant) (s : Store) → Shows setup n self.now memory out s → n < 2 ^ 63 → (result.pages ≡ setup.pages) × (result.free_pages ≡ s.free) × (result.held ≡ length (everything s)) × (counts_shown result.counts ≡ s.counts) × (result.slots ≡ s.growth.0) }
    {
        Tally {
            pages: self.pages(),
            free_pages: self.records.free_pages(),
            held: self.counts.held(),
            counts: self.counts,
            slots: self.records.slots(),
        }
    }
}
