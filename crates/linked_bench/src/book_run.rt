//! The two loops that are timed.

ghost use Rattle.std.specs.Prelude.{◌≡◌, ℕ, ◌≤◌, List, length};
ghost use Rattle.linked_rows.specs.Books.{Sound};

use crate::words::word;
use crate::{MOST, SLOTS};
use linked_rows::{Arena, Book, Entry, Text};

/// A book with the memory that it is lent. The demonstration has one of its own, which is walked and not timed: what
/// the two programs share is `Book`, and one struct for both would hold what each of them lacks.
#[derive(Drop)]
pub struct Shelf<'a> {
    book: Book,
    heads: &'a mut [u32],
    rows: &'a mut [Entry],
    arena: Arena<'a>,
    ghost few: { length rows.now ≤ 20000 },
    ghost sound: { ∥ ((ids : List ℕ) × Sound book heads.now rows.now ids) ∥₁ },
}

impl<'a> Shelf<'a> {
    /// No entry is held, where there are neither too few slots nor too many, and not too many rows.
    pub fn open(
        heads: &'a mut [u32],
        rows: &'a mut [Entry],
        arena: Arena<'a>,
    ) -> Option<Shelf<'a>> {
        if !(16..=SLOTS).contains(&heads.len()) || rows.len() > MOST as usize {
            return None;
        }
        let book = Book::open(heads, rows);
        Some(Shelf {
            book,
            heads,
            rows,
            arena,
        })
    }

    /// How many rows there are.
    pub fn size(&self) -> u32
        ensures { result ≡ length self.now.rows.now }
    {
        self.rows.len() as u32
    }

    /// Enters each row.
    pub fn fill(&mut self) {
        for i in 0..self.size() {
            let _ = self.book.toggle(self.heads, self.rows, i);
        }
    }

    /// Asks so many times for the key of a number, of as many as there are rows from `first` on, and sums the rows found.
    pub fn ask(&self, first: u32, times: u32) -> u32 {
        let size = self.size();
        let mut sum = 0u32;
        let mut draw = 1u32;
        for _ in 0..times {
            // one line, as in the demonstration: the crate below both is of rows, and a draw is none
            draw = draw.wrapping_mul(1_664_525).wrapping_add(1_013_904_223);
            let number = if size == 0 {
                first
            } else {
                first.wrapping_add((draw >> 8) % size)
            };
            let letters = word(number);
            if let Some(i) = self.find(&Text { bytes: &letters }) {
                sum = sum.wrapping_add(i);
            }
        }
        sum
    }

    // The row that has this key, if one is held.
    fn find(&self, key: &Text) -> Option<u32> {
        self.book
            .table
            .chains
            .find(self.heads, self.rows, &self.arena, key)
    }
}
