//! Keys that lie in lent memory.

ghost use Rattle.std.specs.Prelude.{◌≡◌, ℕ, ◌+◌, ◌≤◌, List};
ghost use Rattle.chained.specs.Fnv.{fnv};
ghost use Rattle.linked_rows.specs.Texts.{text_at};

use crate::entry::Entry;
use chained::{Keyed, fnv1a};

/// The memory in which the keys of entries lie.
#[derive(Clone, Copy)]
pub struct Arena<'a> {
    pub bytes: &'a [u8],
}

/// A text that is asked for.
#[derive(Clone, Copy)]
pub struct Text<'a> {
    pub bytes: &'a [u8],
}

impl<'a, 'b> Keyed<Entry, Text<'b>> for Arena<'a> {
    ghost key_of = { λ arena _ row. text_at arena.bytes.now row.at row.len };

    ghost wanted = { λ text. text.bytes.now };

    ghost hashed = { fnv };

    fn hash(&self, key: &Text<'b>) -> u32 {
        fnv1a(key.bytes)
    }

    fn has_key(&self, _i: u32, row: &Entry, key: &Text<'b>) -> bool {
        let at = row.at as usize;
        let end = at + row.len as usize;
        if end > self.bytes.len() {
            return key.bytes.is_empty();
        }
        let here = &self.bytes[at..end];
        here == key.bytes
    }
}
