//! The layer that owns space: pages, their classes, the chunks that pages are cut into, and the grants of chunks.
//! It knows rows, classes and page memory, and nothing of what keys and data mean.
#![tactic(auto)]

mod class;
mod classes;
mod grant;
mod laws;
mod row;
mod slab;
mod walk;

pub use grant::Grant;
pub use laws::laws_stand;
pub use row::{Row, Tag};
pub use slab::{Slab, Tally};
