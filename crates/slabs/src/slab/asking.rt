//! What may be asked and done of any row, with no need to know that it holds a record, and of a grant that key and data may
//! not fit.

ghost use Rattle.std.specs.Prelude.{◌≡◌, ℕ, ◌<◌, List, ◌∷◌, ◌++◌, None, Decides, MatchResult, slice_index, slice_index_or};
ghost use Rattle.recency.specs.Lists.{rearmost};
ghost use Rattle.slabs.specs.Rows.{blank, rests};
ghost use Rattle.slabs.specs.Lists.{free_of, held_of, to_front};
ghost use Rattle.slabs.specs.Layouts.{class_at, start};
ghost use Rattle.slabs.specs.Slabs.{rows_of, layout, Lists, Sound, Shifted, Reordered, Holds, Granted, IfHeld, Tells};
ghost use Rattle.slabs.specs.Records.{Retagged, FitsGrant, Filled, bytes_at, key_of, data_of, tags};

use super::{PAGE, Slab};
use crate::class::{Stand, number};
use crate::grant::Grant;
use crate::row::{Row, Tag};

// Bytes from a place on, as far as there are any.
fn cut(bytes: &[u8], from: usize, len: u32) -> &[u8]
    ensures { result.now ≡ bytes_at bytes.now from len }
{
    let at = from.min(bytes.len());
    let end = (at + len as usize).min(bytes.len());
    &bytes[at..end]
}

// Most stand beside a function that has the caller know of the record: one of the two for each caller, and neither fails.
impl Slab {
    // The row, if it holds a record.
    fn held(&self, i: u32) -> Option<&Row>
        requires { ∥ Sound self.now ∥₁ }
        ensures { Tells self.now i result (λ row. row.now ≡ slice_index_or (rows_of self.now) i blank) }
    {
        let row = self.rows.get(i as usize)?;
        (row.home == number(Stand::Held, self.class_of(i))).then_some(row)
    }

    /// Whether a row holds a record.
    pub fn holds(&self, i: u32) -> bool
        requires { ∥ Sound self.now ∥₁ }
        ensures { Decides result (Holds self.now i) }
    {
        self.held(i).is_some()
    }

    /// Removes a record: its chunk is free. False, and nothing done, where the row holds none.
    pub fn remove_if_held(&mut self, i: u32) -> bool
        requires { ∥ Sound self.old ∥₁ }
        ensures sound { ∥ Sound self.new ∥₁ }
        ensures removed { IfHeld self.old i result (Shifted self.old self.new i (held_of (class_at (layout self.old) i)) (free_of (class_at (layout self.old) i))) (self.new ≡ self.old) }
        ensures rests { rests (rows_of self.new) ≡ rests (rows_of self.old) }
    {
        let held = self.holds(i);
        if held {
            self.remove(i);
        }
        held
    }

    /// Moves a record to the front of its class. False, and nothing done, where the row holds none.
    pub fn move_to_front_if_held(&mut self, i: u32) -> bool
        requires { ∥ Sound self.old ∥₁ }
        ensures sound { ∥ Sound self.new ∥₁ }
        ensures moved { IfHeld self.old i result (Reordered self.old self.new (to_front i (held_of (class_at (layout self.old) i)))) (self.new ≡ self.old) }
    {
        let held = self.holds(i);
        if held {
            self.move_to_front(i);
        }
        held
    }

    /// The record ahead of one in its class, towards the front: a walk from the back goes on here. None where the row
    /// holds no record.
    pub fn ahead_if_held(&self, i: u32) -> Option<u32>
        requires { ∥ Sound self.now ∥₁ }
        ensures ahead { Holds self.now i → (ls : ℕ → List ℕ) → Lists self.now ls → (a b : List ℕ) → ls (held_of (class_at (layout self.now) i)) ≡ a ++ i ∷ b → result ≡ rearmost a }
        ensures none { (Holds self.now i → ⊥) → result ≡ None }
    {
        self.held(i)?;
        self.ahead_of(i)
    }

    /// Fills a granted chunk with a key and its data: it becomes the front record of its class. Gives its row, or the
    /// grant again where key and data do not fit the chunk or page memory is too short.
    pub fn try_link(
        &mut self,
        grant: Grant,
        memory: &mut [u8],
        key: &[u8],
        block: &[u8],
        tag: Tag,
    ) -> Result<u32, Grant>
        requires sound { ∥ Sound self.old ∥₁ }
        requires granted { Granted self.old grant }
        ensures sound { ∥ Sound self.new ∥₁ }
        ensures linked { MatchResult result (λ row. (row ≡ grant.row) × FitsGrant self.old memory.old key.now block.now grant × Filled self.old self.new memory.old memory.new key.now block.now grant tag) (λ back. (back ≡ grant) × (FitsGrant self.old memory.old key.now block.now grant → ⊥) × (self.new ≡ self.old) × (memory.new ≡ memory.old)) }
    {
        let room = self.size(grant.class) as usize;
        if key.len() > room
            || block.len() > room - key.len()
            || memory.len() < PAGE * self.pages as usize
        {
            return Err(grant);
        }
        Ok(self.link(grant, memory, key, block, tag))
    }

    /// Some bytes from where the chunk of a row begins, as far as page memory has them: whoever looks for a key reads
    /// here, with no need to know that the row holds a record.
    pub fn bytes_of<'a>(&self, memory: &'a [u8], i: u32, len: u32) -> &'a [u8]
        requires { ∥ Sound self.now ∥₁ }
        ensures { result.now ≡ bytes_at memory.now (start (layout self.now) i) len }
    {
        cut(memory, self.start(i), len)
    }

    /// The key of a record, where it lies in page memory, as far as page memory has it. None where the row holds no record.
    pub fn key_if_held<'a>(&self, memory: &'a [u8], i: u32) -> Option<&'a [u8]>
        requires { ∥ Sound self.now ∥₁ }
        ensures { Tells self.now i result (λ key. key.now ≡ key_of self.now memory.now i) }
    {
        let row = self.held(i)?;
        Some(self.bytes_of(memory, i, row.key_len))
    }

    /// The data of a record, where they lie in page memory, as far as page memory has them. None where the row holds no record.
    pub fn data_if_held<'a>(&self, memory: &'a [u8], i: u32) -> Option<&'a [u8]>
        requires { ∥ Sound self.now ∥₁ }
        ensures { Tells self.now i result (λ block. block.now ≡ data_of self.now memory.now i) }
    {
        let row = self.held(i)?;
        let at = self.start(i) + row.key_len as usize;
        Some(cut(memory, at, row.data_len))
    }

    /// What is told of a record beside its key and data. None where the row holds no record.
    pub fn tag_if_held(&self, i: u32) -> Option<Tag>
        requires { ∥ Sound self.now ∥₁ }
        ensures { Tells self.now i result (λ tag. (d : Tag) → tag ≡ slice_index_or (tags (rows_of self.now)) i d) }
    {
        let row = self.held(i)?;
        Some(row.tag)
    }

    /// Tells something else of a record. False, and nothing done, where the row holds none.
    pub fn set_tag_if_held(&mut self, i: u32, tag: Tag) -> bool
        requires { ∥ Sound self.old ∥₁ }
        ensures sound { ∥ Sound self.new ∥₁ }
        ensures retagged { IfHeld self.old i result (Retagged self.old self.new i tag) (self.new ≡ self.old) }
    {
        let held = self.holds(i);
        if held {
            self.set_tag(i, tag);
        }
        held
    }
}
