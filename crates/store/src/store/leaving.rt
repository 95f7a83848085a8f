//! Records that leave.

ghost use Rattle.std.specs.Prelude.{◌≡◌, ℕ, ◌^◌, ◌<◌, List, None, Option, slice_set};
ghost use Rattle.slabs.specs.declared.grant.Grant.{Grant};
ghost use Rattle.slabs.specs.Layouts.{class_at};
ghost use Rattle.slabs.specs.Lists.{free_of};
ghost use Rattle.slabs.specs.Slabs.{Holds, homes_of, layout, rows_of};
ghost use Rattle.model.specs.Setup.{Setup};
ghost use Rattle.model.specs.Store.{Store, remove};
ghost use Rattle.records.specs.Reading.{record_at};
ghost use Rattle.records.specs.Kept.{Kept, GrantedTo};
ghost use Rattle.store.specs.Showing.{Shows, Held, found_record, why_of, pages_of};

use super::RecordStore;
use crate::counts::Why;
use crate::found::Found;

impl RecordStore {
    // Takes the record of a row out, and counts it.
    pub(super) fn leave(&mut self, i: u32, why: Why)
        requires { Holds self.old.records.slab i }
        ensures kept { Kept self.old.records self.new.records }
        ensures freed { homes_of self.new.records.slab ≡ slice_set (homes_of self.old.records.slab) i (free_of (class_at (layout self.old.records.slab) i)) }
        ensures grants { (k class : ℕ) → GrantedTo self.old.records.slab k class → GrantedTo self.new.records.slab k class }
        ensures shown { (setup : Setup) (n : ℕ) (memory : List ℕ) (out : Option Grant) (s : Store) (at : ℕ) → Shows setup n self.old memory out s → Shows setup n self.new memory out (remove setup at (why_of why) (record_at (layout self.old.records.slab) (rows_of self.old.records.slab) memory i) s) }
    {
        self.records.unlink(i);
        self.counts.left(why);
    }

    /// Removes a record that was found, and counts why.
    pub fn remove(&mut self, found: Found, why: Why)
        requires held { Held self.old found }
        ensures pages { pages_of self.new ≡ pages_of self.old }
        ensures shown { (setup : Setup) (n : ℕ) (memory : List ℕ) (s : Store) (at : ℕ) → n < 2 ^ 63 → Shows setup n self.old memory None s → Shows setup n self.new memory None (remove setup at (why_of why) (found_record self.old memory found) s) }
    {
        self.leave(found.row, why);
    }
}
