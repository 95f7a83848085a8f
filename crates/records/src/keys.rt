//! Keys that are asked for, and keys that lie in page memory.

ghost use Rattle.std.specs.Prelude.{◌≡◌};
ghost use Rattle.chained.specs.Fnv.{fnv};
ghost use Rattle.slabs.specs.Layouts.{start};
ghost use Rattle.slabs.specs.Records.{bytes_at};
ghost use Rattle.slabs.specs.Slabs.{layout, Sound};

use chained::{Keyed, fnv1a};
use slabs::{Row, Slab};

/// Page memory as a slab cuts it: the key of a row lies where its chunk begins.
#[derive(Clone, Copy)]
pub struct Pages<'s, 'm> {
    pub slab: &'s Slab,
    pub memory: &'m [u8],
    ghost sound: { ∥ Sound slab.now ∥₁ },
}

/// The bytes of a key with their hash, which is so computed once.
#[derive(Clone, Copy)]
pub struct Key<'k> {
    pub bytes: &'k [u8],
    pub hash: u32,
    pub ghost exact: { hash ≡ fnv bytes.now },
}

impl<'k> Key<'k> {
    /// A key of these bytes. A literal serves where their hash is known.
    pub fn new(bytes: &'k [u8]) -> Key<'k>
        ensures { result.bytes.now ≡ bytes.now }
    {
        let hash = fnv1a(bytes);
        Key { bytes, hash }
    }
}

impl<'s, 'm, 'k> Keyed<Row, Key<'k>> for Pages<'s, 'm> {
    ghost key_of = { λ pages i row. bytes_at pages.memory.now (start (layout pages.slab.now) i) row.key_len };

    ghost wanted = { λ key. key.bytes.now };

    ghost hashed = { fnv };

    fn hash(&self, key: &Key<'k>) -> u32 {
        key.hash
    }

    fn has_key(&self, i: u32, row: &Row, key: &Key<'k>) -> bool {
        let here = self.slab.bytes_of(self.memory, i, row.key_len);
        here == key.bytes
    }
}
