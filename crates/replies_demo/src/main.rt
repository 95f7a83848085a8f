//! One of each reply, as the table writes it.

#![tactic(auto)]

ghost use Rattle.std.specs.Prelude.{◌≤◌, [], ◌∷◌, map};
ghost use Rattle.replies.specs.Fair.{Fair};
ghost use Rattle.replies.specs.Growth.{Replied};
ghost use Rattle.replies.specs.Reply.{Line, Values, Statistics};
ghost use Rattle.replies_demo.specs.Items.{shown_of};

use replies::kinds::{Figures, Text};
use replies::limits::reply_bytes;
use replies::output::Writer;
use std::io;
use std::io::Write;

/// How many bytes a buffer has: room for every reply that the table can give. `reply_bytes` tells it too, but the length of an
/// array is a constant.
const BYTES: usize = 18_432;

/// The buffer that replies are written into.
type Buffer = [u8; BYTES];

/// A record to show.
#[derive(Clone, Copy)]
struct Item<'a> {
    key: &'a [u8],
    flags: u32,
    data: &'a [u8],
    cas: u64,
}

// A function for each kind of reply, since its contract names the reply; a closure that writes would hide it.
/// Writes a fixed line, and tells its length.
fn fixed(reply: &mut Buffer, line: Text) -> usize
    ensures within { result ≤ 18432 }
    ensures replied { Replied (Line line) result reply.old reply.new }
{
    let mut writer = Writer::new(reply);
    writer.text(line);
    writer.len()
}

/// Writes the records of `items`, and tells how many bytes that took.
fn found(reply: &mut Buffer, items: &[Item], numbered: bool) -> usize
    requires fair { Fair (Values numbered (map shown_of items.now)) }
    ensures within { result ≤ 18432 }
    ensures replied { Replied (Values numbered (map shown_of items.now)) result reply.old reply.new }
{
    let mut writer = Writer::new(reply);
    for item in items {
        let cas = numbered.then_some(item.cas);
        writer.value(item.key, item.flags, item.data, cas);
    }
    writer.end();
    writer.len()
}

/// Writes the statistics, and tells how many bytes that took.
fn counted(reply: &mut Buffer, figures: &Figures) -> usize
    requires fair { Fair (Statistics figures.now) }
    ensures within { result ≤ 18432 }
    ensures replied { Replied (Statistics figures.now) result reply.old reply.new }
{
    let mut writer = Writer::new(reply);
    writer.statistics(figures);
    writer.len()
}

/// The fixed lines, in the order of their variants.
const LINES: [Text; 13] = [
    Text::Error,
    Text::BadLine,
    Text::BadData,
    Text::TooLarge,
    Text::OutOfMemory,
    Text::Stored,
    Text::NotStored,
    Text::Exists,
    Text::NotFound,
    Text::Deleted,
    Text::Touched,
    Text::Done,
    Text::Version,
];

/// A record whose key, data and numbers are as long as they can be.
const LARGEST: Item<'static> = Item {
    key: &[b'k'; 250],
    flags: 4_294_967_295,
    data: &[b'd'; 3846],
    cas: 18_446_744_073_709_551_615,
};

/// The figures of the demonstration: none, small ones, and the largest.
fn sample_figures() -> Figures {
    Figures {
        limit_pages: 256,
        free_pages: 0,
        curr_items: 9,
        total_items: 10,
        replaced: 11,
        deleted: 99,
        flushed: 100,
        expired: 101,
        evictions: 999,
        dropped: 1000,
        get_hits: 4_294_967_296,
        get_misses: 18_446_744_073_709_551_615,
        curr_connections: 64,
        hash_slots: 65_536,
    }
}

fn main(rt: HostRuntime) -> io::Result<()> {
    let mut reply = [b'#'; BYTES];
    let mut out = rt.stdout();
    for line in LINES {
        let n = fixed(&mut reply, line);
        out.write_all(&reply[..n])?;
    }
    let items = [
        Item {
            key: b"a",
            flags: 0,
            data: b"",
            cas: 1,
        },
        Item {
            key: b"line:2",
            flags: 4_294_967_295,
            data: b"one\r\nEND\r\nVALUE a 0 0\r\n",
            cas: 18_446_744_073_709_551_615,
        },
    ];
    for (shown, numbered) in [(&items[..], false), (&items[..], true), (&[][..], false)] {
        let n = found(&mut reply, shown, numbered);
        out.write_all(&reply[..n])?;
    }
    let n = counted(&mut reply, &sample_figures());
    out.write_all(&reply[..n])?;
    let n = found(&mut reply, &[LARGEST; 4], true);
    println!(rt;
        "The longest reply of a get takes {n} of {} bytes.",
        reply_bytes()
    )
}
