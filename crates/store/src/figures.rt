//! The figures that stats tells of the records.

use crate::counts::Counts;

/// Pages, free pages, records held, what was counted, and the slots of the hash table.
#[derive(Clone, Copy)]
pub struct Tally {
    pub pages: u32,
    pub free_pages: u32,
    pub held: u64,
    pub counts: Counts,
    pub slots: u32,
}
