//! A record that was found, and what a reply shows of it.

/// A record that was found, by the number of its row: rows lie in memory of a fixed size that the owner hands over. It is one
/// until the store is changed.
#[derive(Clone, Copy)]
pub struct Found {
    pub(crate) row: u32,
}

/// What is read of a record: its key and data are parts of page memory.
#[derive(Clone, Copy)]
pub struct View<'a> {
    pub key: &'a [u8],
    pub flags: u32,
    pub expiry: Option<u64>,
    pub cas: u64,
    pub data: &'a [u8],
}
