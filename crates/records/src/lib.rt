//! The records of the table: rows, hash chains, chunks and bytes of pages that are the reference table's records.
#![tactic(auto)]

mod dead;
mod keys;
mod records;

pub use dead::is_dead;
pub use keys::Key;
pub use records::Records;
