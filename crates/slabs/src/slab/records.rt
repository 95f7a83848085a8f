//! Records: their bytes in page memory, and what their rows tell of them.

ghost use Rattle.std.specs.Prelude.{◌≡◌, ℕ, ◌+◌, ◌*◌, ◌<◌, ◌≤◌, List, map, length, ◌≢◌, slice_index, slice_index_or};
ghost use Rattle.slabs.specs.Rows.{homes};
ghost use Rattle.slabs.specs.Lists.{granted_of, held_of};
ghost use Rattle.slabs.specs.Layouts.{start, Chunk};
ghost use Rattle.slabs.specs.Slabs.{rows_of, homes_of, layout, Lists, Sound, Shifted, Holds, Granted};
ghost use Rattle.slabs.specs.Records.{Described, Written, Retagged, chunk_of, key_of, data_of, key_lens, data_lens, tags};

use super::{PAGE, ROWS_PER_PAGE, Slab};
use crate::class::Stand;
use crate::grant::Grant;
use crate::row::{Row, Tag};

// Writes a key and then its data.
fn write_record(memory: &mut [u8], at: usize, key: &[u8], block: &[u8])
    requires { at + length key.now + length block.now ≤ length memory.old }
    ensures { Written memory.old memory.new at key.now block.now }
{
    let middle = at + key.len();
    let end = middle + block.len();
    memory[at..middle].copy_from_slice(key);
    memory[middle..end].copy_from_slice(block);
}

// Has a row tell of a record.
fn describe_row(rows: &mut [Row], i: u32, key_len: u32, data_len: u32, tag: Tag)
    requires { i < length rows.old }
    ensures next { map (λ r. r.next) rows.new ≡ map (λ r. r.next) rows.old }
    ensures prev { map (λ r. r.prev) rows.new ≡ map (λ r. r.prev) rows.old }
    ensures homes { homes rows.new ≡ homes rows.old }
    ensures described { Described rows.old rows.new i key_len data_len tag }
{
    let row = &mut rows[i as usize];
    row.key_len = key_len;
    row.data_len = data_len;
    row.tag = tag;
}

// Page memory is lent to each call, and a record is named by a row of a slab that changes, so what is asked of them stands at the
// calls: no type holds both.
impl Slab {
    // Has the row of a chunk tell of a record.
    fn describe(&mut self, i: u32, key_len: u32, data_len: u32, tag: Tag)
        requires { i < length (rows_of self.old) }
        ensures lists { (ls : ℕ → List ℕ) → Lists self.old ls → Lists self.new ls }
        ensures homes { homes_of self.new ≡ homes_of self.old }
        ensures layout { layout self.new ≡ layout self.old }
        ensures described { Described (rows_of self.old) (rows_of self.new) i key_len data_len tag }
    {
        describe_row(&mut self.rows, i, key_len, data_len, tag);
    }

    // Where the chunk of a row begins.
    pub(super) fn start(&self, i: u32) -> usize
        requires sound { ∥ Sound self.now ∥₁ }
        ensures { result ≡ start (layout self.now) i }
    {
        let page = i as usize / ROWS_PER_PAGE;
        let place = i as usize % ROWS_PER_PAGE;
        page * PAGE + place * self.size(self.class_of(i)) as usize
    }

    // Grant, page memory, key, data and tag each come from another owner: a struct of them would be made for the call alone.
    /// Fills a granted chunk with a key and its data: it becomes the front record of its class. Gives its row.
    pub fn link(
        &mut self,
        grant: Grant,
        memory: &mut [u8],
        key: &[u8],
        block: &[u8],
        tag: Tag,
    ) -> u32
        requires sound { ∥ Sound self.old ∥₁ }
        requires granted { Granted self.old grant }
        requires fits { length key.now + length block.now ≤ slice_index (layout self.old).sizes grant.class }
        requires memory { 4096 * self.old.pages ≤ length memory.old }
        ensures sound { ∥ Sound self.new ∥₁ }
        ensures row { result ≡ grant.row }
        ensures held { Holds self.new result }
        ensures linked { Shifted self.old self.new grant.row (granted_of grant.class) (held_of grant.class) }
        ensures described { Described (rows_of self.old) (rows_of self.new) grant.row (length key.now) (length block.now) tag }
        ensures written { Written memory.old memory.new (start (layout self.old) grant.row) key.now block.now }
        ensures told { (key_of self.new memory.new grant.row ≡ key.now) × (data_of self.new memory.new grant.row ≡ block.now) }
        ensures chunks { (j : ℕ) → Chunk (layout self.old) j → (j ≢ grant.row) → chunk_of self.old memory.new j ≡ chunk_of self.old memory.old j }
        ensures others { (j : ℕ) → Holds self.old j → (key_of self.new memory.new j ≡ key_of self.old memory.old j) × (data_of self.new memory.new j ≡ data_of self.old memory.old j) }
    {
        let Grant { row, class } = grant;
        let at = self.start(row);
        write_record(memory, at, key, block);
        self.describe(row, key.len() as u32, block.len() as u32, tag);
        self.shift(class, Stand::Granted, Stand::Held, row);
        row
    }

    // The row of a record.
    pub(super) fn row(&self, i: u32) -> Row
        requires sound { ∥ Sound self.now ∥₁ }
        requires held { Holds self.now i }
        ensures key { result.key_len ≡ slice_index (key_lens (rows_of self.now)) i }
        ensures block { result.data_len ≡ slice_index (data_lens (rows_of self.now)) i }
        ensures tag { (d : Tag) → result.tag ≡ slice_index_or (tags (rows_of self.now)) i d }
    {
        self.rows[i as usize]
    }

    /// The size of a class's chunks, 0 where there is no such class.
    pub fn size(&self, class: usize) -> u32
        requires { ∥ Sound self.now ∥₁ }
        ensures { result ≡ slice_index (layout self.now).sizes class }
    {
        self.classes.all.get(class).map_or(0, |class| class.size)
    }

    /// The key of a record, where it lies in page memory.
    pub fn key_of<'a>(&self, memory: &'a [u8], i: u32) -> &'a [u8]
        requires sound { ∥ Sound self.now ∥₁ }
        requires held { Holds self.now i }
        requires memory { 4096 * self.now.pages ≤ length memory.now }
        ensures { result.now ≡ key_of self.now memory.now i }
    {
        let row = self.row(i);
        let at = self.start(i);
        let end = at + row.key_len as usize;
        &memory[at..end]
    }

    /// The data of a record, where it lies in page memory.
    pub fn data_of<'a>(&self, memory: &'a [u8], i: u32) -> &'a [u8]
        requires sound { ∥ Sound self.now ∥₁ }
        requires held { Holds self.now i }
        requires memory { 4096 * self.now.pages ≤ length memory.now }
        ensures { result.now ≡ data_of self.now memory.now i }
    {
        let row = self.row(i);
        let at = self.start(i) + row.key_len as usize;
        let end = at + row.data_len as usize;
        &memory[at..end]
    }

    /// What is told of a record beside its key and data.
    pub fn tag(&self, i: u32) -> Tag
        requires sound { ∥ Sound self.now ∥₁ }
        requires held { Holds self.now i }
        ensures { (d : Tag) → result ≡ slice_index_or (tags (rows_of self.now)) i d }
    {
        self.row(i).tag
    }

    /// Tells something else of a record.
    pub fn set_tag(&mut self, i: u32, tag: Tag)
        requires sound { ∥ Sound self.old ∥₁ }
        requires held { Holds self.old i }
        ensures sound { ∥ Sound self.new ∥₁ }
        ensures retagged { Retagged self.old self.new i tag }
    {
        let row = self.row(i);
        self.describe(i, row.key_len, row.data_len, tag);
    }
}
