//! The hash table grows, one slot at a time.

ghost use Rattle.std.specs.Prelude.{◌≡◌, ℕ, List, vec_len};
ghost use Rattle.chained.specs.Chains.{size};
ghost use Rattle.chained.specs.Growth.{grow_after, move_one};
ghost use Rattle.slabs.specs.Slabs.{layout};
ghost use Rattle.model.specs.Setup.{Setup};
ghost use Rattle.model.specs.Store.{Class};
ghost use Rattle.records.specs.Kept.{GrantedTo};
ghost use Rattle.records.specs.Showing.{ShowsRecords};

use super::Records;

impl Records {
    /// Starts to double the slots where the rule of growth asks for it: the caller says how many records are held.
    pub fn grow_after(&mut self, entries: u32)
        ensures slab { self.new.slab ≡ self.old.slab }
        ensures slots { vec_len self.new.heads ≡ vec_len self.old.heads }
        ensures grown { size self.new.table ≡ grow_after entries (vec_len self.old.heads) (size self.old.table) }
    {
        self.table.grow_after(&self.heads, entries);
    }

    /// Moves one old slot, if one is left.
    pub fn move_slot(&mut self)
        ensures moved { size self.new.table ≡ move_one (size self.old.table) }
        ensures layout { layout self.new.slab ≡ layout self.old.slab }
        ensures slots { vec_len self.new.heads ≡ vec_len self.old.heads }
        ensures granted { (i class : ℕ) → GrantedTo self.new.slab i class → GrantedTo self.old.slab i class }
        ensures shown { (setup : Setup) (memory : List ℕ) (ks : List Class) → ShowsRecords setup self.old.slab memory ks → ShowsRecords setup self.new.slab memory ks }
    {
        self.table.move_one(&mut self.heads, &mut self.slab.rows);
    }
}
