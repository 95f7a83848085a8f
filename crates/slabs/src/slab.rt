//! A slab: the rows of all chunks, the classes, and which page was given to which class.

ghost use Rattle.std.specs.Prelude.{◌≡◌};

use crate::classes::Classes;
use crate::row::Row;

mod asking;
mod chunks;
mod opening;
mod pages;
mod records;

pub use pages::Tally;

/// The most chunks that a page can have.
const ROWS_PER_PAGE: usize = 85;

/// The most pages of a slab.
const MOST_PAGES: usize = 256;

/// The bytes of a page.
const PAGE: usize = plan::PAGE as usize;

// `rows` is public, and whoever writes it may still ask for the pages of the slab: so `Sound` stands at the calls that need it, and
// no invariant asks for it at the others.
/// Pages, cut into chunks for the classes that they were given to.
#[derive(Drop)]
pub struct Slab {
    pub rows: Vec<Row>,
    pub(crate) classes: Classes,
    // The class of each page; as many as `given` have one. Fixed memory: a page is given with nothing allocated. 0 stands for
    // none, as it does for the lists of rows, so that code and clauses have one number for the class of any page.
    owners: [u8; 256],
    given: u32,
    pages: u32,
}

impl Slab {
    /// How many pages there are.
    pub fn pages(&self) -> u32
        ensures { result ≡ self.now.pages }
    {
        self.pages
    }
}
