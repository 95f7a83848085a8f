//! Thousands of entries and visitors come, are asked for, and go, and each answer is checked against a simple list.
#![tactic(auto)]

mod draws;
mod numbers;
mod plain;
mod run;
mod table;
mod texts;

use chained::fnv1a;
use linked_rows::{Arena, Entry, Visitor};
use numbers::Numbers;
use run::Run;
use std::io;
use texts::Texts;

/// How many rows there are: enough for the table to grow to its largest size.
const ROWS: u32 = 14_000;
/// How many steps are taken by lot.
const STEPS: u32 = 14_000;
/// Keys are asked for of this many numbers: more than there are rows.
const RANGE: u32 = 16_000;

const SLOTS: usize = 16_384;

fn main(rt: HostRuntime) -> io::Result<()> {
    let heap = rt.alloc();
    println!(rt;
        "hash of nothing {:08x}, of a {:08x}, of foobar {:08x}",
        fnv1a(b""),
        fnv1a(b"a"),
        fnv1a(b"foobar")
    )?;
    let mut memory = Vec::new(heap);
    let mut entries = Vec::new(heap);
    for i in 0..ROWS {
        let letters = texts::letters(i);
        memory.extend_from_slice(&letters)?;
        entries.push(Entry::new(i * 16, texts::text(&letters, i)))?;
    }
    let mut heads = vec![in heap; 0u32; SLOTS]?;
    let arena = Arena { bytes: &memory };
    if let Some(texts) = Texts::open(&mut heads, &mut entries, arena) {
        Run::new(heap, texts, 1).go(&rt)?;
    }
    let mut visitors = Vec::new(heap);
    for i in 0..ROWS {
        visitors.push(Visitor {
            number: numbers::number_of(i),
            ..Visitor::default()
        })?;
    }
    if let Some(numbers) = Numbers::open(&mut heads, &mut visitors) {
        Run::new(heap, numbers, 2).go(&rt)?;
    }
    Ok(())
}
