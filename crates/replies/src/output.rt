//! The writer: what it has written stands at the start of the caller's buffer.

ghost use Rattle.std.specs.Prelude.{◌≡◌, is_some, unwrap_or};
ghost use Rattle.replies.specs.Growth.{Room, Wrote, front};
ghost use Rattle.replies.specs.Reading.{ReadsBack};
ghost use Rattle.replies.specs.Render.{value_head, cas_part, value_lines, end_line, render};
ghost use Rattle.replies.specs.Reply.{Line, Statistics};

mod bytes;
mod stats;

use super::kinds::{Figures, Text};

/// The buffer, and how much of it is written: the caller hands over fixed memory, and a `Vec` would take a heap.
#[derive(Drop)]
pub struct Writer<'a> {
    out: &'a mut [u8],
    len: usize,
}

impl<'a> Writer<'a> {
    /// A writer at the start of `out`, with nothing written.
    pub fn new(out: &'a mut [u8]) -> Writer<'a>
        ensures buffer { result.out.ghost_name ≡ out.entry.ghost_name }
        ensures held { result.out.now ≡ out.old }
        ensures empty { result.len ≡ 0 }
    {
        Writer { out, len: 0 }
    }

    /// How many bytes are written.
    pub fn len(&self) -> usize
        ensures { result ≡ self.now.len }
    {
        self.len
    }

    /// Writes a fixed line.
    pub fn text(&mut self, line: Text)
        requires { Room (render (Line line)) self.old }
        ensures { Wrote (render (Line line)) self.old self.new }
    {
        self.put(line.words());
        self.put(b"\r\n");
    }

    /// Writes a record shown, with its cas number where one is given; key and data are copied from where they lie.
    pub fn value(&mut self, key: &[u8], flags: u32, data: &[u8], cas: Option<u64>)
        requires { Room (value_lines (is_some cas) (record { key = key.now; flags = flags; block = «data».now; cas = unwrap_or cas 0 })) self.old }
        ensures { Wrote (value_lines (is_some cas) (record { key = key.now; flags = flags; block = «data».now; cas = unwrap_or cas 0 })) self.old self.new }
    {
        self.value_head(key, flags, data.len());
        self.cas_part(cas);
        self.put(b"\r\n");
        self.put(data);
        self.put(b"\r\n");
    }

    /// Ends the records shown: they can now be read back from what is written.
    pub fn end(&mut self)
        requires { Room end_line self.old }
        ensures wrote { Wrote end_line self.old self.new }
        ensures readable { ReadsBack (front self.old) (front self.new) }
    {
        self.put(b"END\r\n");
    }

    /// Writes the statistics, and ends them.
    pub fn statistics(&mut self, figures: &Figures)
        requires { Room (render (Statistics figures.now)) self.old }
        ensures { Wrote (render (Statistics figures.now)) self.old self.new }
    {
        self.stats(&[
            (b"limit_pages", figures.limit_pages),
            (b"free_pages", figures.free_pages),
            (b"curr_items", figures.curr_items),
            (b"total_items", figures.total_items),
            (b"replaced", figures.replaced),
            (b"deleted", figures.deleted),
            (b"flushed", figures.flushed),
            (b"expired", figures.expired),
            (b"evictions", figures.evictions),
            (b"dropped", figures.dropped),
            (b"get_hits", figures.get_hits),
            (b"get_misses", figures.get_misses),
            (b"curr_connections", figures.curr_connections),
            (b"hash_slots", figures.hash_slots),
        ]);
        self.end();
    }

    /// Writes a record's first line, up to the length of its data.
    fn value_head(&mut self, key: &[u8], flags: u32, bytes: usize)
        requires { Room (value_head key.now flags bytes) self.old }
        ensures { Wrote (value_head key.now flags bytes) self.old self.new }
    {
        self.put(b"VALUE ");
        self.put(key);
        self.put(b" ");
        self.put_number(flags);
        self.put(b" ");
        self.put_number(bytes);
    }

    /// Writes the cas number behind the length, where one is given.
    fn cas_part(&mut self, cas: Option<u64>)
        requires { Room (cas_part (is_some cas) (unwrap_or cas 0)) self.old }
        ensures { Wrote (cas_part (is_some cas) (unwrap_or cas 0)) self.old self.new }
    {
        if let Some(number) = cas {
            self.put(b" ");
            self.put_number(number);
        }
    }
}
