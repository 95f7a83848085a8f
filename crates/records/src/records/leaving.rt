//! Records that leave.

ghost use Rattle.std.specs.Prelude.{◌≡◌, ℕ, List, slice_set};
ghost use Rattle.slabs.specs.Layouts.{class_at};
ghost use Rattle.slabs.specs.Lists.{free_of};
ghost use Rattle.slabs.specs.Slabs.{Holds, homes_of, layout, rows_of};
ghost use Rattle.model.specs.Setup.{Setup};
ghost use Rattle.model.specs.Store.{Class};
ghost use Rattle.records.specs.Reading.{record_at, without_record};
ghost use Rattle.records.specs.Kept.{Kept, GrantedTo};
ghost use Rattle.records.specs.Showing.{ShowsRecords};

use super::Records;

impl Records {
    /// Takes a record out of its class and out of the table: its chunk is free.
    pub fn unlink(&mut self, i: u32)
        requires held { Holds self.old.slab i }
        ensures kept { Kept self.old self.new }
        ensures freed { homes_of self.new.slab ≡ slice_set (homes_of self.old.slab) i (free_of (class_at (layout self.old.slab) i)) }
        ensures grants { (k class : ℕ) → GrantedTo self.old.slab k class → GrantedTo self.new.slab k class }
        ensures shown { (setup : Setup) (memory : List ℕ) (ks : List Class) → ShowsRecords setup self.old.slab memory ks → ShowsRecords setup self.new.slab memory (without_record setup (record_at (layout self.old.slab) (rows_of self.old.slab) memory i) ks) }
    {
        self.table.remove(&mut self.heads, &mut self.slab.rows, i);
        self.slab.remove(i);
    }
}
