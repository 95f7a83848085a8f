//! A row whose key is a text.

ghost use Rattle.std.specs.Prelude.{◌≡◌, ◌^◌, ◌<◌, false, length};
ghost use Rattle.std.proofs.Common.{rules};
ghost use Rattle.chained.specs.Fnv.{fnv};
ghost use Rattle.linked_rows.specs.Books.{mark};

use crate::register::Marked;
use chained::{Chained, fnv1a};
use recency::Linked;

/// A row that names where its key lies. It can be in a list and in a table.
#[derive(Clone, Copy, Default)]
pub struct Entry {
    pub at: u32,
    pub len: u32,
    pub hash: u32,
    pub held: bool,
    pub link: u32,
    pub next: u32,
    pub prev: u32,
}

impl Entry {
    /// A row for a key at a place. It is not held yet.
    pub fn new(at: u32, key: &[u8]) -> Entry
        requires { length key.now < 2 ^ 32 }
        ensures { result ≡ record { at = at; len = length key.now; hash = fnv key.now; held = false; link = 0; next = 0; prev = 0 } }
    {
        Entry {
            at,
            len: key.len() as u32,
            hash: fnv1a(key),
            ..Entry::default()
        }
    }
}

// Which fields are its links is all that a row says here: a struct of links as a field would put one more name into each clause
// and each constructor, and spare none of these.
impl Linked for Entry {
    ghost next_of = { λ row. row.next };

    ghost prev_of = { λ row. row.prev };

    ghost bare = { λ row. record { at = row.at; len = row.len; hash = row.hash; held = row.held; link = row.link; next = 0; prev = 0 } };

    ghost whole = { Prim.search rules };

    fn next(&self) -> u32 {
        self.next
    }

    fn prev(&self) -> u32 {
        self.prev
    }

    fn set_next(&mut self, to: u32) {
        self.next = to;
    }

    fn set_prev(&mut self, to: u32) {
        self.prev = to;
    }
}

impl Chained for Entry {
    ghost link_of = { λ row. row.link };

    ghost hash_of = { λ row. row.hash };

    ghost bare = { λ row. record { at = row.at; len = row.len; hash = row.hash; held = row.held; link = 0; next = row.next; prev = row.prev } };

    ghost whole = { Prim.search rules };

    ghost blind = { Prim.search rules };

    fn link(&self) -> u32 {
        self.link
    }

    fn hash(&self) -> u32 {
        self.hash
    }

    fn set_link(&mut self, to: u32) {
        self.link = to;
    }
}

impl Marked for Entry {
    ghost mark_of = { mark };

    ghost rest_of = { λ row. record { at = row.at; len = row.len; hash = row.hash; held = false; link = 0; next = row.next; prev = row.prev } };

    ghost mark_stays = { Prim.search rules };

    ghost rest_stays = { Prim.search rules };

    fn is_held(&self) -> bool {
        self.held
    }

    fn set_held(&mut self, held: bool) {
        self.held = held;
    }
}
