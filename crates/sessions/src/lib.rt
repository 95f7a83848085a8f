//! The open sessions: at most 64 callers, the one served last in front, the one that was idle longest at the back.
#![tactic(auto)]

mod facts;
mod roster;
mod row;
mod sessions;

pub use facts::{admission_is_the_reference_tables, order_stays};
pub use row::SessionRow;
pub use sessions::Sessions;
