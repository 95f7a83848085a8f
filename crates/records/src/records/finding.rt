//! The row of a key.

ghost use Rattle.std.specs.Prelude.{◌≡◌, ℕ, List, IfSome};
ghost use Rattle.std.specs.Option.{option_map};
ghost use Rattle.std.specs.List.{flat_map};
ghost use Rattle.slabs.specs.Slabs.{Holds, layout, rows_of};
ghost use Rattle.model.specs.Setup.{Setup};
ghost use Rattle.model.specs.Records.{has_key};
ghost use Rattle.model.specs.Store.{Class, first, records_of};
ghost use Rattle.records.specs.Reading.{record_at};
ghost use Rattle.records.specs.Showing.{ShowsRecords};

use super::Records;
use crate::keys::{Key, Pages};

impl Records {
    /// The row of the record that is held under a key, if there is one.
    pub fn find(&self, memory: &[u8], key: &Key) -> Option<u32>
        ensures held { IfSome result (λ i. Holds self.now.slab i) }
        ensures found { (setup : Setup) (ks : List Class) → ShowsRecords setup self.now.slab memory.now ks → first (has_key key.now.bytes.now) (flat_map records_of ks) ≡ option_map (λ i. record_at (layout self.now.slab) (rows_of self.now.slab) memory.now i) result }
    {
        let pages = Pages {
            slab: &self.slab,
            memory,
        };
        self.table.find(&self.heads, &self.slab.rows, &pages, key)
    }
}
