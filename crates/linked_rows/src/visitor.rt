//! A row whose key is a number.

ghost use Rattle.std.specs.Prelude.{false};
ghost use Rattle.std.proofs.Common.{rules};
ghost use Rattle.linked_rows.specs.Lists.{present};

use crate::register::{Marked, Register};
use chained::{Chained, Numbered};

/// A row that has its key in itself.
#[derive(Clone, Copy, Default)]
pub struct Visitor {
    pub number: u32,
    pub held: bool,
    pub link: u32,
}

impl Numbered for Visitor {
    ghost number_of = { λ row. row.number };

    fn number(&self) -> u32 {
        self.number
    }
}

// Which field is its link is all that a row says here: see `Entry`.
impl Chained for Visitor {
    ghost link_of = { λ row. row.link };
    // a number is its own hash
    ghost hash_of = { λ row. row.number };

    ghost bare = { λ row. record { number = row.number; held = row.held; link = 0 } };

    ghost whole = { Prim.search rules };

    ghost blind = { Prim.search rules };

    fn link(&self) -> u32 {
        self.link
    }

    fn hash(&self) -> u32 {
        self.number
    }

    fn set_link(&mut self, to: u32) {
        self.link = to;
    }
}

impl Marked for Visitor {
    ghost mark_of = { present };

    ghost rest_of = { λ row. record { number = row.number; held = false; link = 0 } };

    ghost mark_stays = { Prim.search rules };

    ghost rest_stays = { Prim.search rules };

    fn is_held(&self) -> bool {
        self.held
    }

    fn set_held(&mut self, held: bool) {
        self.held = held;
    }
}

/// The visitors that are held, in a table by their numbers.
pub type Guests = Register;
