//! Which rows are open sessions and which are free.

mod moves;
mod opening;
mod steps;

use chained::Chains;
use recency::RecencyList;

/// The open sessions in a list and, by their callers, in a table; a list of the free rows; how many are open. A step takes
/// the slots and rows beside it: between two steps the three may break what `Sessions`, their owner, states of them.
#[derive(Clone, Copy)]
pub struct Roster {
    pub(crate) open: RecencyList,
    pub(crate) free: RecencyList,
    pub(crate) callers: Chains,
    pub(crate) count: u32,
}
