//! A request, whose parts lie in the bytes that were brought.

ghost use Rattle.std.specs.Prelude.{ℕ, List};
ghost use Rattle.lines.specs.Requests.{KeyAt, KeysOf, NthKey};

use super::Verb;
use super::tokens::Span;

/// A part of the bytes brought, with its place in them.
#[derive(Clone, Copy)]
pub struct Part<'a> {
    pub bytes: &'a [u8],
    pub at: usize,
}

/// The most keys that a get may have.
pub const KEY_COUNT: usize = 4;

/// The keys of a get: the first `count` spans of its line. An `ArrayVec` of them is not `Copy`, as a request is.
#[derive(Clone, Copy)]
pub struct Keys<'a> {
    pub line: &'a [u8],
    pub spans: [Span; KEY_COUNT],
    pub count: usize,
}

/// A request. Its keys and its data block are parts of the bytes brought.
#[derive(Clone, Copy)]
pub enum Request<'a> {
    Get {
        cas: bool,
        keys: Keys<'a>,
    },
    Store {
        verb: Verb,
        key: Part<'a>,
        flags: u32,
        exptime: i32,
        block: Part<'a>,
    },
    Delete {
        key: Part<'a>,
    },
    Touch {
        key: Part<'a>,
        exptime: i32,
    },
    FlushAll,
    Version,
    Quit,
    Stats,
}

impl<'a> Keys<'a> {
    /// The i-th key, counted from 0.
    pub fn nth(&self, i: usize) -> Option<Part<'a>>
        ensures here { KeyAt self.now i result }
        ensures placed { (bytes : List ℕ) → KeysOf bytes self.now → NthKey bytes self.now i result }
    {
        // `count` may pass the spans, and then `spans.get(..count)` would have no key at all.
        if i >= self.count {
            return None;
        }
        let span = self.spans.get(i)?;
        let bytes = self.line.get(span.at..)?.get(..span.len)?;
        Some(Part { bytes, at: span.at })
    }
}
