//! Records that are stored.

ghost use Rattle.std.specs.Prelude.{◌≡◌, ℕ, ◌+◌, ◌*◌, ◌^◌, ◌<◌, ◌≤◌, List, length, Some, None, Option};
ghost use Rattle.slabs.specs.declared.grant.Grant.{Grant};
ghost use Rattle.model.specs.Setup.{Setup};
ghost use Rattle.model.specs.Records.{class_for};
ghost use Rattle.model.specs.Store.{Store, Replaced, held, remove_any, numbered, insert, grow, link};
ghost use Rattle.records.specs.Kept.{Kept, GrantedTo};
ghost use Rattle.store.specs.Showing.{Shows, HasGrant, room_of, pages_of, new_record};

use super::RecordStore;
use crate::counts::Why;
use records::Key;
use slabs::{Grant, Tag};

/// What is told of a record that is stored, beside its key and data.
#[derive(Clone, Copy)]
pub struct Fresh {
    pub flags: u32,
    pub expiry: Option<u64>,
    pub second: u32,
}

impl RecordStore {
    // Removes what is held under a key, for a new record takes its place.
    fn clear(&mut self, memory: &[u8], key: &Key)
        ensures kept { Kept self.old.records self.new.records }
        ensures grants { (k class : ℕ) → GrantedTo self.old.records.slab k class → GrantedTo self.new.records.slab k class }
        ensures shown { (setup : Setup) (n : ℕ) (out : Option Grant) (s : Store) (at : ℕ) → Shows setup n self.old memory.now out s → Shows setup n self.new memory.now out (remove_any setup at Replaced (held key.now.bytes.now s) s) }
    {
        if let Some(old) = self.records.find(memory, key) {
            self.leave(old, Why::Replaced);
        }
    }

    // Fills a granted chunk with a record whose key is not held, gives it the next cas number, and counts it.
    fn insert(&mut self, memory: &mut [u8], grant: Grant, key: &Key, data: &[u8], fresh: Fresh)
        requires granted { HasGrant self.old grant }
        requires fits { length key.now.bytes.now + length «data».now ≤ room_of self.old grant }
        requires memory { 4096 * pages_of self.old ≤ length memory.old }
        ensures pages { pages_of self.new ≡ pages_of self.old }
        ensures shown { (setup : Setup) (n : ℕ) (s : Store) → n < 2 ^ 63 → class_for setup key.now.bytes.now «data».now ≡ Some grant.class → held key.now.bytes.now s ≡ None → Shows setup n self.old memory.old (Some grant) s → Shows setup (n + 1) self.new memory.new None (insert setup (numbered (s.cas + 1) (new_record key.now.bytes.now «data».now fresh)) s) }
    {
        let need = key.bytes.len().saturating_add(data.len());
        self.soonest.note_new(&self.plan, need as u64, fresh.expiry);
        self.cas = self.cas.saturating_add(1);
        self.counts.stored();
        let tag = Tag {
            hash: key.hash,
            flags: fresh.flags,
            expiry: fresh.expiry,
            cas: self.cas,
            moved: fresh.second,
        };
        self.records.put(memory, grant, key.bytes, data, tag);
    }

    // Lets the hash table grow, now that there is one more record.
    fn grow(&mut self)
        ensures pages { pages_of self.new ≡ pages_of self.old }
        ensures shown { (setup : Setup) (n : ℕ) (memory : List ℕ) (out : Option Grant) (s : Store) → Shows setup n self.old memory out s → Shows setup n self.new memory out (grow setup s) }
    {
        self.records.grow_after(self.counts.entries());
    }

    /// Stores a record in a granted chunk, in place of one that is held under its key.
    pub fn link(&mut self, memory: &mut [u8], grant: Grant, key: &Key, data: &[u8], fresh: Fresh)
        requires granted { HasGrant self.old grant }
        requires fits { length key.now.bytes.now + length «data».now ≤ room_of self.old grant }
        requires memory { 4096 * pages_of self.old ≤ length memory.old }
        ensures pages { pages_of self.new ≡ pages_of self.old }
        ensures shown { (setup : Setup) (n : ℕ) (s : Store) → n < 2 ^ 63 → class_for setup key.now.bytes.now «data».now ≡ Some grant.class → Shows setup n self.old memory.old (Some grant) s → Shows setup (n + 1) self.new memory.new None (link setup fresh.second (new_record key.now.bytes.now «data».now fresh) s) }
    {
        self.clear(memory, key);
        self.insert(memory, grant, key, data, fresh);
        self.grow();
    }
}
