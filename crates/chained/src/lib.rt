//! A hash table over rows and slots that their owner holds. It allocates nothing, and it grows one slot at a time.
#![tactic(auto)]

mod fnv;
mod keys;
mod table;

pub use fnv::fnv1a;
pub use keys::{ByNumber, Keyed, Numbered};
pub use recency::NONE;
pub use table::{Chained, Chains};
