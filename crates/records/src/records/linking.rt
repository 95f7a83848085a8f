//! A granted chunk is filled with a record.

ghost use Rattle.std.specs.Prelude.{◌≡◌, ℕ, ◌+◌, ◌*◌, ◌≤◌, List, ◌∷◌, length, None, slice_index};
ghost use Rattle.std.specs.List.{flat_map};
ghost use Rattle.chained.specs.Fnv.{fnv};
ghost use Rattle.slabs.specs.Slabs.{Granted, layout};
ghost use Rattle.model.specs.Setup.{Setup};
ghost use Rattle.model.specs.Records.{has_key, class_no};
ghost use Rattle.model.specs.Sound.{Numbered};
ghost use Rattle.model.specs.Store.{Class, class_at, first, records_of, with_records};
ghost use Rattle.records.specs.Kept.{GrantedTo, Kept};
ghost use Rattle.records.specs.Reading.{brought};
ghost use Rattle.records.specs.Showing.{ShowsRecords};

use super::Records;
use chained::Chained;
use slabs::{Grant, Tag};

impl Records {
    /// Fills a granted chunk with a key and its data: the record is at the front of its class, and is found by its key.
    pub fn put(&mut self, memory: &mut [u8], grant: Grant, key: &[u8], data: &[u8], tag: Tag)
        requires granted { Granted self.old.slab grant }
        requires fits { length key.now + length «data».now ≤ slice_index (layout self.old.slab).sizes grant.class }
        requires memory { 4096 * self.old.slab.pages ≤ length memory.old }
        ensures kept { Kept self.old self.new }
        ensures spent { (class : ℕ) → GrantedTo self.new.slab grant.row class → ⊥ }
        ensures shown { (setup : Setup) (ks : List Class) → ShowsRecords setup self.old.slab memory.old ks → Numbered setup grant.class → tag.hash ≡ fnv key.now → class_no setup (brought key.now «data».now tag) ≡ grant.class → first (has_key key.now) (flat_map records_of ks) ≡ None → ShowsRecords setup self.new.slab memory.new (with_records grant.class (brought key.now «data».now tag ∷ (class_at grant.class ks).records) ks) }
    {
        // key and hash come apart: a tag may be put with any hash, and the record is shown only if it is the key's
        let row = self.slab.link(grant, memory, key, data, tag);
        self.table.insert(&mut self.heads, &mut self.slab.rows, row);
    }
}
