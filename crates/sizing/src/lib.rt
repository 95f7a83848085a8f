// The arithmetic of a table's size: kinds of records, what they add up to in each class, and the pages that they need.
#![tactic(auto)]

mod given;
mod kind;
mod reading;
mod tally;

pub use given::pages_given;
pub use kind::{Fault, Field, Kind};
pub use tally::{Load, Shortage, Tally, Unplaced};
