//! What is read of records, and of the memory that holds them.

ghost use Rattle.std.specs.Prelude.{◌≡◌, ℕ, ◌+◌, ◌<◌, ◌≤◌, true, List, length, IfSome, slice_index, slice_index_or};
ghost use Rattle.std.specs.Option.{option_map};
ghost use Rattle.chained.specs.Chains.{size};
ghost use Rattle.slabs.specs.Rows.{blank};
ghost use Rattle.slabs.specs.Lists.{held_of};
ghost use Rattle.slabs.specs.Layouts as slab;
ghost use Rattle.slabs.specs.Slabs.{Holds, Lists, layout, rows_of};
ghost use Rattle.model.specs.Setup.{Setup};
ghost use Rattle.model.specs.Records.{dead};
ghost use Rattle.model.specs.Sound.{Numbered};
ghost use Rattle.model.specs.Store.{Class, class_at, first, last};
ghost use Rattle.records.specs.Reading.{record_at};
ghost use Rattle.records.specs.Showing.{ShowsRecords};

use super::Records;
use crate::dead::is_dead;
use slabs::Tag;

impl Records {
    /// What is told of a record beside its key and data.
    pub fn tag(&self, i: u32) -> Tag
        requires held { Holds self.now.slab i }
        ensures { result ≡ (slice_index_or (rows_of self.now.slab) i blank).tag }
    {
        self.slab.tag(i)
    }

    /// The key of a record, where it lies in page memory.
    pub fn key<'a>(&self, memory: &'a [u8], i: u32) -> &'a [u8]
        requires { Holds self.now.slab i }
        ensures { result.now ≡ (record_at (layout self.now.slab) (rows_of self.now.slab) memory.now i).key }
    {
        self.slab.key_if_held(memory, i).unwrap()
    }

    /// The data of a record, where they lie in page memory.
    pub fn data<'a>(&self, memory: &'a [u8], i: u32) -> &'a [u8]
        requires held { Holds self.now.slab i }
        ensures data { result.now ≡ (record_at (layout self.now.slab) (rows_of self.now.slab) memory.now i).block }
        ensures short { (slice_index_or (rows_of self.now.slab) i blank).key_len + length result.now ≤ 4096 }
    {
        self.slab.data_if_held(memory, i).unwrap()
    }

    /// The class of a record.
    pub fn class_of(&self, i: u32) -> usize
        requires held { Holds self.now.slab i }
        ensures value { result ≡ slab.class_at (layout self.now.slab) i }
        ensures few { result < 33 }
    {
        self.slab.class_held(i).unwrap()
    }

    /// How many records a class holds.
    pub fn used(&self, class: usize) -> u32
        ensures { (ls : ℕ → List ℕ) → Lists self.now.slab ls → result ≡ length (ls (held_of class)) }
    {
        self.slab.tally(class).used
    }

    // The two ends are two calls, as a VecDeque has `front` and `back`.

    /// The front record of a class, if it has one.
    pub fn foremost(&self, class: usize) -> Option<u32>
        ensures held { IfSome result (λ i. Holds self.now.slab i) }
        ensures shown { (setup : Setup) (memory : List ℕ) (ks : List Class) → ShowsRecords setup self.now.slab memory ks → Numbered setup class → first (λ _. true) (class_at class ks).records ≡ option_map (λ i. record_at (layout self.now.slab) (rows_of self.now.slab) memory i) result }
    {
        self.slab.foremost(class)
    }

    /// The rearmost record of a class, if it has one.
    pub fn rearmost(&self, class: usize) -> Option<u32>
        ensures held { IfSome result (λ i. Holds self.now.slab i) }
        ensures shown { (setup : Setup) (memory : List ℕ) (ks : List Class) → ShowsRecords setup self.now.slab memory ks → Numbered setup class → last (λ _. true) (class_at class ks).records ≡ option_map (λ i. record_at (layout self.now.slab) (rows_of self.now.slab) memory i) result }
    {
        self.slab.rearmost(class)
    }

    /// The dead record nearest the back of a class, if it has one. This walks along the class.
    pub fn rearmost_dead(&self, class: usize, second: u32) -> Option<u32>
        ensures held { IfSome result (λ i. Holds self.now.slab i) }
        ensures shown { (setup : Setup) (memory : List ℕ) (ks : List Class) → ShowsRecords setup self.now.slab memory ks → Numbered setup class → last (dead second) (class_at class ks).records ≡ option_map (λ i. record_at (layout self.now.slab) (rows_of self.now.slab) memory i) result }
    {
        self.slab
            .rearmost_picked(class, |row| is_dead(row.tag.expiry, second))
    }

    /// How many pages there are.
    pub fn pages(&self) -> u32
        ensures { result ≡ self.now.slab.pages }
    {
        self.slab.pages()
    }

    /// How many pages were not given out yet.
    pub fn free_pages(&self) -> u32
        ensures { self.now.slab.given + result ≡ self.now.slab.pages }
    {
        self.slab.free_pages()
    }

    /// The size of a class's chunks, 0 where there is no such class.
    pub fn size(&self, class: usize) -> u32
        ensures { result ≡ slice_index (layout self.now.slab).sizes class }
    {
        self.slab.size(class)
    }

    /// How many slots of the hash table are in use.
    pub fn slots(&self) -> u32
        ensures { result ≡ (size self.now.table).0 }
    {
        self.table.size().0
    }
}
