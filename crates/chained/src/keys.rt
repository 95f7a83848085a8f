//! Keys: what a table is asked for.

ghost use Rattle.std.specs.Prelude.{◌≡◌, ℕ, List, [], ◌∷◌, Decides, slice_index};

/// Tells whether a row has a key. Where the keys lie outside the rows, they lie in what implements this.
pub trait Keyed<R, K> {
    // the key of a row, by its number and the row
    ghost key_of: { Self → ℕ → R → List ℕ };
    // what a key asked for means
    ghost wanted: { K → List ℕ };
    // equal keys have equal hashes, since a hash is a function of the key
    ghost hashed: { List ℕ → ℕ };

    fn hash(&self, key: &K) -> u32
        ensures { result ≡ hashed (wanted key.now) };

    fn has_key(&self, i: u32, row: &R, key: &K) -> bool
        ensures { Decides result (key_of self.now i row.now ≡ wanted key.now) };
}

/// A row that has a number for its key.
pub trait Numbered {
    ghost number_of: { Self → ℕ };

    fn number(&self) -> u32
        ensures { result ≡ number_of self.now };
}

/// Keys that are numbers in the rows. A number's hash is the number itself.
#[derive(Clone, Copy)]
pub struct ByNumber;

impl<R: Numbered> Keyed<R, u32> for ByNumber {
    ghost key_of = { λ _ _ row. R.Numbered.number_of row ∷ [] };

    ghost wanted = { λ number. number ∷ [] };

    ghost hashed = { λ key. slice_index key 0 };

    fn hash(&self, number: &u32) -> u32 {
        *number
    }

    fn has_key(&self, _i: u32, row: &R, key: &u32) -> bool {
        row.number() == *key
    }
}
