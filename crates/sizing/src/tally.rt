ghost use Rattle.std.specs.Prelude.{◌*◌, ◌≤◌};

use plan::{MOST_CLASSES, Plan};
use std::error::Error;
use std::fmt;

mod adding;
mod asking;

// What the records of a class come to.
#[derive(Clone, Copy)]
struct Sum {
    records: u64,
    // bytes of keys and data
    filled: u128,
    // no record is larger than a page, so that the bytes can be added up without a test
    ghost paged: { filled ≤ 4096 * records },
}

// What the kinds of records that were added come to, class by class; class 1 is at index 0.
#[derive(Clone, Copy)]
pub struct Tally {
    plan: Plan,
    sums: [Sum; MOST_CLASSES],
}

// Why a kind of record goes to no class.
#[derive(Clone, Copy, Debug, PartialEq, Eq)]
pub enum Unplaced {
    // no chunk is large enough
    TooLarge,
    // the records of its class would be too many to count in 64 bits
    Uncountable,
}

// What a class comes to.
#[derive(Clone, Copy)]
pub struct Load {
    pub records: u64,
    pub pages: u128,
    // of all those pages
    pub chunks: u128,
    // the thousandths of the pages' bytes that keys and data take
    pub share: u128,
}

// Where pages that are handed to the classes in their order run out: the first class that does not get all its pages,
// and how many it lacks.
#[derive(Clone, Copy, Debug, PartialEq, Eq)]
pub struct Shortage {
    pub class: usize,
    pub lacks: u128,
}

impl fmt::Display for Unplaced {
    ghost use Rattle.std.specs.Prelude.{Some};
    ghost use Rattle.sizing.specs.Texts.{unplaced_text};

    ghost output = { λ unplaced. Some (unplaced_text unplaced) };

    fn fmt<W: fmt::Write>(&self, f: &mut fmt::Formatter<W>) -> fmt::Result {
        f.write_str(match self {
            Unplaced::TooLarge => "too large",
            Unplaced::Uncountable => {
                "its class would have more than 18446744073709551615 records, the most that is counted"
            }
        })
    }
}

impl Error for Unplaced {}

impl fmt::Display for Shortage {
    ghost use Rattle.std.specs.Prelude.{Some};
    ghost use Rattle.sizing.specs.Texts.{shortage_text};

    ghost output = { λ shortage. Some (shortage_text shortage) };

    fn fmt<W: fmt::Write>(&self, f: &mut fmt::Formatter<W>) -> fmt::Result {
        let class = self.class;
        let lacks = self.lacks;
        write!(f, "class {class} is the first that is short, by {lacks}")
    }
}

impl Error for Shortage {}
