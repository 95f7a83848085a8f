//! The records of the table as the reference table has them: found, used, removed, granted, linked, flushed and counted.
#![tactic(auto)]

mod counts;
mod figures;
mod found;
mod soonest;
mod store;

pub use counts::{Counts, Why};
pub use figures::Tally;
pub use found::{Found, View};
pub use records::Key;
pub use store::{Fresh, NoRoom, RecordStore};
