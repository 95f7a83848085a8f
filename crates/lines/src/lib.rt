//! The reader of the text protocol: the bytes of one request to a request that borrows from them.

#![tactic(auto)]

mod fields;
mod line;
mod reader;
mod request;
mod tokens;
mod words;

pub use reader::{read, read_line, reading_stands};
pub use request::{Keys, Part, Request};
pub use tokens::{Span, line_end};

/// What a storage command does with its item; `Cas` stores only where the record still has that number.
#[derive(Clone, Copy)]
pub enum Verb {
    Set,
    Add,
    Replace,
    Cas(u64),
}

/// The first fault of a request, in the order of judging.
#[derive(Clone, Copy)]
pub enum Fault {
    /// An unknown word, or a wrong count of tokens.
    Unknown,
    /// A bad key or a bad number.
    BadLine,
    /// The bytes after the line are not exactly what is due.
    BadData,
}
