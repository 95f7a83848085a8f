//! The loops that are timed.

ghost use Rattle.std.specs.Prelude.{◌*◌, ◌≤◌, vec_len};
ghost use Rattle.store.specs.Showing.{pages_of};

use plan::PAGE;
use policy::EveryUse;
use store::{Fresh, Key, RecordStore};

/// The bytes of a record's data; with a key of eight bytes it takes a chunk of 96.
const DATA: [u8; 80] = [b'd'; 80];

/// How many records of that size a page has chunks for.
const EACH: u32 = PAGE / 96;

/// A store with its page memory.
#[derive(Drop)]
pub struct Bench {
    store: RecordStore,
    memory: Vec<u8>,
    ghost wide: { 4096 * pages_of store ≤ vec_len memory },
}

// The key of a number: no two numbers have the same.
fn key_of(number: u32) -> [u8; 8] {
    u64::from(number).to_be_bytes()
}

impl Bench {
    /// A store to be timed, unless its memory is too short for its pages.
    pub fn open(store: RecordStore, memory: Vec<u8>) -> Option<Bench> {
        if memory.len() / (PAGE as usize) < store.pages() as usize {
            return None;
        }
        Some(Bench { store, memory })
    }

    /// How many pages the store has.
    pub fn pages(&self) -> u32 {
        self.store.pages()
    }

    /// How many records it has room for.
    pub fn room(&self) -> u32 {
        self.store.pages().saturating_mul(EACH)
    }

    // Stores a record under the key of a number; says whether there was room.
    fn keep(&mut self, number: u32) -> bool {
        let key = key_of(number);
        let Ok(grant) = self.store.grant(&EveryUse, 0, key.len(), DATA.len()) else {
            return false;
        };
        let fresh = Fresh {
            flags: 0,
            expiry: None,
            second: 0,
        };
        self.store
            .link(&mut self.memory, grant, &Key::new(&key), &DATA, fresh);
        self.store.move_slot();
        true
    }

    /// Stores records under so many keys, from number `first` on, and counts those that found room.
    pub fn fill(&mut self, first: u32, times: u32) -> u32 {
        let mut kept = 0u32;
        for turn in 0..times {
            if self.keep(first.wrapping_add(turn)) {
                kept = kept.wrapping_add(1);
            }
        }
        kept
    }

    /// Asks so many times for the key of a number, of as many as there is room for from `first` on, and counts those found.
    pub fn ask(&mut self, first: u32, times: u32) -> u32 {
        let range = self.room().max(1);
        let mut found = 0u32;
        for turn in 0..times {
            let number = first.wrapping_add(turn.wrapping_mul(40_503) % range);
            let key = key_of(number);
            let held = self.store.find(&self.memory, &Key::new(&key), 0);
            if let Some(held) = held {
                self.store.use_record(held, &EveryUse, 0);
                found = found.wrapping_add(1);
            }
        }
        found
    }

    /// How many records are held, and how many were pushed out.
    pub fn figures(&self) -> (u64, u64) {
        let tally = self.store.figures();
        (tally.held, tally.counts.evicted)
    }
}
