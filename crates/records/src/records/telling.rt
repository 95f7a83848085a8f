//! What is told of a record anew: its second at the front, its expiry.

ghost use Rattle.std.specs.Prelude.{◌≡◌, ℕ, List, map, slice_index};
ghost use Rattle.slabs.specs.Slabs.{Holds, layout, rows_of};
ghost use Rattle.model.specs.Setup.{Setup};
ghost use Rattle.model.specs.Store.{Class};
ghost use Rattle.model.specs.Records.{expiring};
ghost use Rattle.records.specs.Reading.{record_at, with_front, with_expiry};
ghost use Rattle.records.specs.Showing.{ShowsRecords};
ghost use Rattle.slabs.specs.Records.{Retagged};
ghost use Rattle.records.specs.Kept.{Kept};

use super::Records;
use slabs::Tag;

impl Records {
    // Tells something else of a record, whose hash stays.
    fn retag(&mut self, i: u32, tag: Tag)
        requires held { Holds self.old.slab i }
        requires hash { tag.hash ≡ slice_index (map (λ row. row.tag.hash) (rows_of self.old.slab)) i }
        ensures retagged { Retagged self.old.slab self.new.slab i tag }
        ensures table { self.new.table ≡ self.old.table }
        ensures kept { Kept self.old self.new }
    {
        self.slab.set_tag(i, tag);
    }

    /// Brings a record to the front of its class at this second.
    pub fn bring_to_front(&mut self, i: u32, second: u32)
        requires held { Holds self.old.slab i }
        ensures kept { Kept self.old self.new }
        ensures stays { Holds self.new.slab i }
        ensures shown { (setup : Setup) (memory : List ℕ) (ks : List Class) → ShowsRecords setup self.old.slab memory ks → ShowsRecords setup self.new.slab memory (with_front setup second (record_at (layout self.old.slab) (rows_of self.old.slab) memory i) ks) }
    {
        let tag = self.slab.tag(i);
        self.retag(
            i,
            Tag {
                moved: second,
                ..tag
            },
        );
        self.slab.move_to_front(i);
    }

    /// Sets the expiry of a record where it stands.
    pub fn set_expiry(&mut self, i: u32, expiry: Option<u64>)
        requires held { Holds self.old.slab i }
        ensures kept { Kept self.old self.new }
        ensures stays { Holds self.new.slab i }
        ensures shown { (setup : Setup) (memory : List ℕ) (ks : List Class) → ShowsRecords setup self.old.slab memory ks → ShowsRecords setup self.new.slab memory (with_expiry setup expiry (record_at (layout self.old.slab) (rows_of self.old.slab) memory i) ks) }
        ensures told { (memory : List ℕ) → record_at (layout self.new.slab) (rows_of self.new.slab) memory i ≡ expiring expiry (record_at (layout self.old.slab) (rows_of self.old.slab) memory i) }
    {
        let tag = self.slab.tag(i);
        self.retag(i, Tag { expiry, ..tag });
    }
}
