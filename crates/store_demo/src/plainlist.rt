//! The same records as a plain list, the last used one in front: what a store of one class and one page should hold.

ghost use Rattle.std.specs.Prelude.{◌<◌, IfSome, vec_len};

use std::alloc::{AllocError, Global};
use store::Tally;

/// A record of the list.
#[derive(Clone, Copy)]
pub struct Entry {
    pub key: [u8; 4],
    pub data: [u8; 40],
    pub expiry: Option<u64>,
}

impl Entry {
    // written anew, since the list shares no code with the store that it checks
    fn is_dead(&self, second: u32) -> bool {
        self.expiry
            .is_some_and(|expiry| expiry <= u64::from(second))
    }
}

/// How many records left by each way.
#[derive(Clone, Copy, Default, PartialEq)]
struct Left {
    evicted: u64,
    expired: u64,
    replaced: u64,
    deleted: u64,
}

/// How many records are held, and how many left by each way.
#[derive(Clone, Copy, PartialEq)]
pub struct Figures {
    held: u64,
    left: Left,
}

impl From<Tally> for Figures {
    fn from(tally: Tally) -> Figures {
        let counts = tally.counts;
        Figures {
            held: tally.held,
            left: Left {
                evicted: counts.evicted,
                expired: counts.expired,
                replaced: counts.replaced,
                deleted: counts.deleted,
            },
        }
    }
}

/// The records, and how many left by each way.
#[derive(Drop)]
pub struct PlainList {
    entries: Vec<Entry>,
    left: Left,
}

impl PlainList {
    /// An empty list.
    pub fn new(alloc: Global) -> PlainList {
        PlainList {
            entries: Vec::new(alloc),
            left: Left::default(),
        }
    }

    /// How many records are held, and how many left by each way.
    pub fn figures(&self) -> Figures {
        Figures {
            held: self.entries.len() as u64,
            left: self.left,
        }
    }

    // Where the record of a key stands.
    fn place(&self, key: [u8; 4]) -> Option<usize>
        ensures { IfSome result (λ at. at < vec_len self.now.entries) }
    {
        self.entries.iter().position(|entry| entry.key == key)
    }

    // Where the dead record nearest the back stands.
    fn rearmost_dead(&self, second: u32) -> Option<usize>
        ensures { IfSome result (λ at. at < vec_len self.now.entries) }
    {
        self.entries.iter().rposition(|entry| entry.is_dead(second))
    }

    /// The record of a key; a dead one leaves.
    pub fn find(&mut self, key: [u8; 4], second: u32) -> Option<Entry> {
        let at = self.place(key)?;
        let entry = self.entries[at];
        if entry.is_dead(second) {
            self.entries.remove(at);
            self.left.expired = self.left.expired.wrapping_add(1);
            return None;
        }
        Some(entry)
    }

    /// Puts the record of a key in front.
    pub fn touch(&mut self, key: [u8; 4]) -> Result<(), AllocError> {
        if let Some(at) = self.place(key) {
            let entry = self.entries.remove(at);
            self.entries.insert(0, entry)?;
        }
        Ok(())
    }

    /// Deletes the record of a key.
    pub fn delete(&mut self, key: [u8; 4]) {
        if let Some(at) = self.place(key) {
            self.entries.remove(at);
            self.left.deleted = self.left.deleted.wrapping_add(1);
        }
    }

    // Makes room for one more among at most `most`: a dead record leaves, the one nearest the back, or else the last.
    fn make_room(&mut self, most: usize, second: u32) {
        if self.entries.len() < most {
            return;
        }
        if let Some(at) = self.rearmost_dead(second) {
            self.entries.remove(at);
            self.left.expired = self.left.expired.wrapping_add(1);
        } else {
            self.entries.pop();
            self.left.evicted = self.left.evicted.wrapping_add(1);
        }
    }

    /// Stores a record in front; one that is still held under its key then leaves.
    pub fn store(&mut self, entry: Entry, most: usize, second: u32) -> Result<(), AllocError> {
        self.make_room(most, second);
        if let Some(at) = self.place(entry.key) {
            self.entries.remove(at);
            self.left.replaced = self.left.replaced.wrapping_add(1);
        }
        self.entries.insert(0, entry)?;
        Ok(())
    }
}
