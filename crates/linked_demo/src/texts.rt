//! Entries, whose keys are texts in lent memory: in a table and in a recency list at once.

ghost use Rattle.std.specs.Prelude.{ℕ, ◌≤◌, List, length};
ghost use Rattle.linked_rows.specs.Books.{Sound};

use crate::plain::Plain;
use crate::table::{Order, Table};
use crate::{ROWS, SLOTS};
use linked_rows::{Arena, Book, Entry, Text};
use recency::ahead_of;

/// The letters of the text of a number: four for the number, and the rest all the same. Texts differ in length, and keys of
/// `linked_bench` do not.
pub fn letters(number: u32) -> [u8; 16] {
    let mut out = [b'z'; 16];
    let mut left = number;
    for letter in &mut out[..4] {
        *letter = b'a' + (left % 16) as u8;
        left /= 16;
    }
    out
}

/// The text of a number, which is up to ten of its letters.
pub fn text(letters: &[u8; 16], number: u32) -> &[u8]
    ensures { length result.now ≤ 16 }
{
    &letters[..4 + (number % 7) as usize]
}

/// A book with the memory that it is lent.
#[derive(Drop)]
pub struct Texts<'a> {
    book: Book,
    heads: &'a mut [u32],
    rows: &'a mut [Entry],
    arena: Arena<'a>,
    ghost sound: { ∥ ((ids : List ℕ) × Sound book heads.now rows.now ids) ∥₁ },
}

impl<'a> Texts<'a> {
    /// No entry is held, where there are neither too few slots nor too many, and not too many rows.
    pub fn open(
        heads: &'a mut [u32],
        rows: &'a mut [Entry],
        arena: Arena<'a>,
    ) -> Option<Texts<'a>> {
        if !(16..=SLOTS).contains(&heads.len()) || rows.len() > ROWS as usize {
            return None;
        }
        let book = Book::open(heads, rows);
        Some(Texts {
            book,
            heads,
            rows,
            arena,
        })
    }
}

impl<'a> Table for Texts<'a> {
    fn name(&self) -> &'static str {
        "texts"
    }

    fn toggle(&mut self, i: u32) -> Option<bool> {
        if i as usize >= self.rows.len() {
            return None;
        }
        Some(self.book.toggle(self.heads, self.rows, i))
    }

    fn use_row(&mut self, i: u32) {
        if (i as usize) < self.rows.len() {
            self.book.use_row(self.rows, i);
        }
    }

    fn find(&self, number: u32) -> Option<u32> {
        let letters = letters(number);
        let key = Text {
            bytes: text(&letters, number),
        };
        self.book
            .table
            .chains
            .find(self.heads, self.rows, &self.arena, &key)
    }

    fn size(&self) -> (u32, u32) {
        self.book.table.chains.size()
    }

    // From the back to the front, beside the simple list.
    fn walk(&self, plain: &Plain) -> Option<Order> {
        let mut order = Order { sum: 0, wrong: 0 };
        let mut at = self.book.list.back();
        for right in plain.iter() {
            if at != Some(*right) {
                order.wrong = order.wrong.wrapping_add(1);
            }
            if let Some(i) = at {
                order.sum = order.sum.wrapping_mul(31).wrapping_add(i);
            }
            at = at
                .filter(|i| (*i as usize) < self.rows.len())
                .and_then(|i| ahead_of(self.rows, i));
        }
        if at.is_some() {
            order.wrong = order.wrong.wrapping_add(1);
        }
        Some(order)
    }
}
