// A plan: the sizes of the chunks that pages are cut into, and the class of each record.
#![tactic(auto)]

mod examples;
mod needs;
mod plan;

pub use examples::examples_stand;
pub use needs::need;
pub use plan::{MOST_CLASSES, PAGE, Plan};
