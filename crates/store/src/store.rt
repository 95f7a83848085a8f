//! The store: the records with their plan, cas numbers and counts.

mod finding;
mod flushing;
mod granting;
mod leaving;
mod linking;
mod opening;
mod telling;
mod tending;

use crate::counts::Counts;
use crate::soonest::Soonest;
pub use granting::NoRoom;
pub use linking::Fresh;
use plan::Plan;
use records::Records;

// `Held`, `HasGrant` and the length of page memory are of what one call is given, and `Shows` ties memory that is lent: they stand
// at the calls, since no type holds both sides.
/// All records, the last cas number, and what is counted. Each call says that the number of pages stays, since it is the size of
/// the memory that the owner hands over, and no constant of the type.
#[derive(Drop)]
pub struct RecordStore {
    plan: Plan,
    records: Records,
    cas: u64,
    counts: Counts,
    soonest: Soonest,
}
