//! The grant of a chunk.

/// The obligation to fill a chunk or to return it. It cannot be copied or let go: `link` or `give_back` takes it.
pub struct Grant {
    pub(crate) row: u32,
    pub(crate) class: usize,
}
