//! Visitors, whose keys are numbers.

ghost use Rattle.std.specs.Prelude.{ℕ, List};
ghost use Rattle.linked_rows.specs.Lists.{Attended};

use crate::table::Table;
use crate::{ROWS, SLOTS};
use chained::ByNumber;
use linked_rows::{Guests, Visitor};

/// The number of the visitor in row i: no two rows have the same.
pub fn number_of(i: u32) -> u32 {
    i.wrapping_mul(2_654_435_761)
}

/// Guests with the memory that they are lent.
#[derive(Drop)]
pub struct Numbers<'a> {
    guests: Guests,
    heads: &'a mut [u32],
    rows: &'a mut [Visitor],
    ghost sound: { ∥ ((ids : List ℕ) × Attended guests heads.now rows.now ids) ∥₁ },
}

impl<'a> Numbers<'a> {
    // `Texts` opens as this does, over rows of another type and with its arena: each test is the one that its own ghost field needs.
    /// No visitor is held, where there are neither too few slots nor too many, and not too many rows.
    pub fn open(heads: &'a mut [u32], rows: &'a mut [Visitor]) -> Option<Numbers<'a>> {
        if !(16..=SLOTS).contains(&heads.len()) || rows.len() > ROWS as usize {
            return None;
        }
        let guests = Guests::open(heads, rows);
        Some(Numbers {
            guests,
            heads,
            rows,
        })
    }
}

impl<'a> Table for Numbers<'a> {
    fn name(&self) -> &'static str {
        "numbers"
    }

    fn toggle(&mut self, i: u32) -> Option<bool> {
        if i as usize >= self.rows.len() {
            return None;
        }
        Some(self.guests.toggle(self.heads, self.rows, i))
    }

    fn find(&self, number: u32) -> Option<u32> {
        let key = number_of(number);
        self.guests
            .chains
            .find(self.heads, self.rows, &ByNumber, &key)
    }

    fn size(&self) -> (u32, u32) {
        self.guests.chains.size()
    }
}
