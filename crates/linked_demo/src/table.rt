//! What a run asks of a table of rows.

use crate::plain::Plain;

/// What a walk through a table's order found beside the simple list.
#[derive(Clone, Copy)]
pub struct Order {
    /// A sum of the row numbers met, which tells one order from another.
    pub sum: u32,
    pub wrong: u32,
}

/// A table of rows, some of which are held.
pub trait Table {
    /// What the rows' keys are.
    fn name(&self) -> &'static str;

    /// Holds a row, or lets it go where it was held; says whether it is held now, if there is such a row.
    fn toggle(&mut self, i: u32) -> Option<bool>;

    /// Has a row be the last used one, if the table keeps an order.
    fn use_row(&mut self, _i: u32) {}

    /// The row held that has the key of a number.
    fn find(&self, number: u32) -> Option<u32>;

    /// How many slots are in use, and how many old slots have still to be moved.
    fn size(&self) -> (u32, u32);

    /// Walks through the order that the table keeps, if it keeps one.
    fn walk(&self, _plain: &Plain) -> Option<Order> {
        None
    }
}
