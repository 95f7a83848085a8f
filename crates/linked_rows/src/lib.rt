//! Rows that are in a recency list and in a hash table at once: entries, with keys that are texts in lent memory, and
//! visitors, with keys that are numbers.
#![tactic(auto)]

mod arena;
mod book;
mod entry;
mod register;
mod visitor;

pub use arena::{Arena, Text};
pub use book::Book;
pub use entry::Entry;
pub use register::{Marked, Register};
pub use visitor::{Guests, Visitor};
