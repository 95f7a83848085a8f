//! Records that are found by their key.

ghost use Rattle.std.specs.Prelude.{◌≡◌, ℕ, ◌+◌, ◌*◌, ◌≤◌, List, length, IfSome, None};
ghost use Rattle.std.specs.Option.{option_map};
ghost use Rattle.model.specs.Setup.{Setup};
ghost use Rattle.model.specs.Store.{Store, find, held};
ghost use Rattle.store.specs.Showing.{Shows, Held, found_record, pages_of};

use super::RecordStore;
use crate::counts::Why;
use crate::found::{Found, View};
use records::{Key, is_dead};

impl RecordStore {
    /// The record of a key, if one is held. A dead one is removed.
    pub fn find(&mut self, memory: &[u8], key: &Key, second: u32) -> Option<Found>
        ensures pages { pages_of self.new ≡ pages_of self.old }
        ensures held { IfSome result (λ found. Held self.new found) }
        ensures shown { (setup : Setup) (n : ℕ) (s : Store) → Shows setup n self.old memory.now None s → Shows setup n self.new memory.now None (find setup second key.now.bytes.now s) × (held key.now.bytes.now (find setup second key.now.bytes.now s) ≡ option_map (λ found. found_record self.new memory.now found) result) }
    {
        let row = self.records.find(memory, key)?;
        let tag = self.records.tag(row);
        if is_dead(tag.expiry, second) {
            self.leave(row, Why::Expired);
            return None;
        }
        Some(Found { row })
    }

    /// What is read of a record that was found.
    pub fn view<'a>(&self, memory: &'a [u8], found: Found) -> View<'a>
        requires held { Held self.now found }
        requires memory { 4096 * pages_of self.now ≤ length memory.now }
        ensures key { result.key.now ≡ (found_record self.now memory.now found).key }
        ensures flags { result.flags ≡ (found_record self.now memory.now found).flags }
        ensures expiry { result.expiry ≡ (found_record self.now memory.now found).expiry }
        ensures cas { result.cas ≡ (found_record self.now memory.now found).cas }
        ensures data { result.«data».now ≡ (found_record self.now memory.now found).block }
        ensures short { length (found_record self.now memory.now found).key + length result.«data».now ≤ 4096 }
    {
        let tag = self.records.tag(found.row);
        View {
            key: self.records.key(memory, found.row),
            flags: tag.flags,
            expiry: tag.expiry,
            cas: tag.cas,
            data: self.records.data(memory, found.row),
        }
    }

    /// The cas number of a record that was found.
    pub fn cas_of(&self, found: Found) -> u64
        requires held { Held self.now found }
        ensures { (memory : List ℕ) → result ≡ (found_record self.now memory found).cas }
    {
        self.records.tag(found.row).cas
    }
}
