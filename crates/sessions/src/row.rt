//! One session's row, which is in a list of rows and, while its session is open, in the table of callers.

ghost use Rattle.std.specs.Prelude.{◌≡◌, ◌<◌, map, length, slice_index_or, slice_set};
ghost use Rattle.sessions.specs.Rows.{session_of, unlisted, unchained, unsaid, session};
ghost use Rattle.std.proofs.Common.{rules};

use chained::{Chained, Numbered};
use recency::Linked;

/// A session's caller and the second at which it was served last, and the row's neighbours.
#[derive(Clone, Copy, Default)]
pub struct SessionRow {
    caller: u32,
    last: u32,
    link: u32,
    next: u32,
    prev: u32,
}

// Which fields are its links is all that a row says here: a struct of links as a field would put one more name into each clause
// and each constructor, and spare none of these.
impl Linked for SessionRow {
    ghost next_of = { λ row. row.next };

    ghost prev_of = { λ row. row.prev };

    ghost bare = { unlisted };

    ghost whole = { Prim.search rules };

    fn next(&self) -> u32 {
        self.next
    }

    fn prev(&self) -> u32 {
        self.prev
    }

    fn set_next(&mut self, to: u32) {
        self.next = to;
    }

    fn set_prev(&mut self, to: u32) {
        self.prev = to;
    }
}

impl Numbered for SessionRow {
    ghost number_of = { λ row. row.caller };

    fn number(&self) -> u32 {
        self.caller
    }
}

impl Chained for SessionRow {
    ghost link_of = { λ row. row.link };
    // a caller's number is its own hash
    ghost hash_of = { λ row. row.caller };

    ghost bare = { unchained };

    ghost whole = { Prim.search rules };

    ghost blind = { Prim.search rules };

    fn link(&self) -> u32 {
        self.link
    }

    fn hash(&self) -> u32 {
        self.caller
    }

    fn set_link(&mut self, to: u32) {
        self.link = to;
    }
}

/// Has a row say that this caller was served at this second.
#[tactic(auto, using(recency::proofs::Columns::column_set, recency::proofs::Columns::column_kept))]
pub fn note(rows: &mut [SessionRow], i: u32, caller: u32, second: u32)
    requires { i < length rows.old }
    ensures said { map session_of rows.new ≡ slice_set (map session_of rows.old) i (session caller second) }
    ensures rest { map unsaid rows.new ≡ map unsaid rows.old }
{
    let row = &mut rows[i as usize];
    row.caller = caller;
    row.last = second;
}

/// The second at which a row's session was served last.
pub fn last_second(rows: &[SessionRow], i: u32) -> u32
    requires { i < length rows.now }
    ensures { result ≡ (slice_index_or (map session_of rows.now) i (session 0 0)).last }
{
    rows[i as usize].last
}
