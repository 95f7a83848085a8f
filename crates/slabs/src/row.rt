//! The row of a chunk: what is known of the record in it, but for its bytes.

ghost use Rattle.std.specs.Prelude.{◌≡◌};
ghost use Rattle.slabs.specs.Rows.{blank};
ghost use Rattle.std.proofs.Common.{rules};

use chained::Chained;
use recency::Linked;

/// What the layer above tells of a record beside its key and data.
#[derive(Clone, Copy, Default)]
pub struct Tag {
    pub hash: u32,
    pub flags: u32,
    /// The second from which the record is dead; `None` for never.
    pub expiry: Option<u64>,
    pub cas: u64,
    /// The second in which the record was last put at the front.
    pub moved: u32,
}

/// One row for each chunk that a page can have. The row names the list that it is in.
// Rows and lists are named by number, 0 for no list: rows lie in fixed memory that their owner hands over, so they stay small.
#[derive(Clone, Copy, Default)]
pub struct Row {
    pub next: u32,
    pub prev: u32,
    pub home: u32,
    /// For the hash chain of the layer above.
    pub chain: u32,
    pub key_len: u32,
    pub data_len: u32,
    pub tag: Tag,
}

impl Row {
    /// A row that is in no list, and of which nothing is told.
    pub fn blank() -> Row
        ensures { result ≡ blank }
    {
        Row::default()
    }
}

// Which fields are its links is all that a row says here: a struct of links as a field would put one more name into each clause
// and each constructor, and spare none of these.
impl Linked for Row {
    ghost next_of = { λ row. row.next };

    ghost prev_of = { λ row. row.prev };

    ghost bare = { λ row. record { next = 0; prev = 0; home = row.home; chain = row.chain; key_len = row.key_len; data_len = row.data_len; tag = row.tag } };

    ghost whole = { Prim.search rules };

    fn next(&self) -> u32 {
        self.next
    }

    fn prev(&self) -> u32 {
        self.prev
    }

    fn set_next(&mut self, to: u32) {
        self.next = to;
    }

    fn set_prev(&mut self, to: u32) {
        self.prev = to;
    }
}

// For the hash table of the layer above.
impl Chained for Row {
    ghost link_of = { λ row. row.chain };

    ghost hash_of = { λ row. row.tag.hash };

    ghost bare = { λ row. record { next = row.next; prev = row.prev; home = row.home; chain = 0; key_len = row.key_len; data_len = row.data_len; tag = row.tag } };

    ghost whole = { Prim.search rules };

    ghost blind = { Prim.search rules };

    fn link(&self) -> u32 {
        self.chain
    }

    fn hash(&self) -> u32 {
        self.tag.hash
    }

    fn set_link(&mut self, to: u32) {
        self.chain = to;
    }
}
