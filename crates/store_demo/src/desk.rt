//! A store and a plain list, to which the same is done.

ghost use Rattle.std.specs.Prelude.{◌*◌, ◌≤◌, vec_len};
ghost use Rattle.store.specs.Showing.{pages_of};

use crate::plainlist::{Entry, Figures, PlainList};
use policy::EveryUse;
use std::alloc::AllocError;
use store::{Fresh, Key, RecordStore, Tally, Why};

/// The most records of the class that a page has chunks for: 4,096 / 96.
const MOST: usize = 42;

/// A store with its page memory, and the list that should hold the same records.
#[derive(Drop)]
pub struct Desk {
    pub store: RecordStore,
    pub memory: Vec<u8>,
    pub list: PlainList,
    ghost wide: { 4096 * pages_of store ≤ vec_len memory },
}

impl Desk {
    /// Asks both for a key; says whether they agree.
    pub fn ask(&mut self, key: [u8; 4], second: u32) -> Result<bool, AllocError> {
        let copy = self.list.find(key, second);
        let found = self.store.find(&self.memory, &Key::new(&key), second);
        self.store.count_asked(found.is_some());
        match (found, copy) {
            (Some(found), Some(copy)) => {
                let agree = self.store.view(&self.memory, found).data == copy.data.as_slice();
                self.store.use_record(found, &EveryUse, second);
                self.list.touch(key)?;
                Ok(agree)
            }
            (found, copy) => Ok(found.is_none() && copy.is_none()),
        }
    }

    /// Deletes a key from both; says whether they agree.
    pub fn forget(&mut self, key: [u8; 4], second: u32) -> bool {
        let copy = self.list.find(key, second);
        let found = self.store.find(&self.memory, &Key::new(&key), second);
        if let Some(found) = found {
            self.store.remove(found, Why::Deleted);
        }
        self.list.delete(key);
        found.is_some() == copy.is_some()
    }

    /// Stores a record in both; says whether the store had room, as it must.
    pub fn keep(&mut self, copy: Entry, second: u32) -> Result<bool, AllocError> {
        let key = Key::new(&copy.key);
        let old = self.list.find(copy.key, second);
        let found = self.store.find(&self.memory, &key, second);
        let agree = old.is_some() == found.is_some();
        self.list.store(copy, MOST, second)?;
        let Ok(grant) = self.store.grant(&EveryUse, second, 4, 40) else {
            return Ok(false);
        };
        let fresh = Fresh {
            flags: 0,
            expiry: copy.expiry,
            second,
        };
        self.store
            .link(&mut self.memory, grant, &key, &copy.data, fresh);
        Ok(agree)
    }

    /// Moves one old slot of the store's hash table.
    pub fn move_slot(&mut self) {
        self.store.move_slot();
    }

    /// All records leave the store.
    pub fn flush(&mut self) {
        self.store.flush();
    }

    /// The figures of the store, and whether the list's are the same.
    pub fn figures(&self) -> (Tally, bool) {
        let tally = self.store.figures();
        (tally, Figures::from(tally) == self.list.figures())
    }
}
