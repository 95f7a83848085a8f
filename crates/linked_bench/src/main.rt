//! What an insertion and a lookup cost as the table grows: `linked_bench LOOKUPS SIZE..`, and `time` for the times.
#![tactic(auto)]

mod book_run;
mod words;

use book_run::Shelf;
use linked_rows::{Arena, Entry};
use std::time::Instant;
use std::{env, io};
use words::word;

const SLOTS: usize = 16_384;

const MOST: u32 = 20_000;

fn main(rt: HostRuntime) -> io::Result<()> {
    let heap = rt.alloc();
    let mut lookups = 0u32;
    let mut timed = false;
    let mut sizes: Vec<u32> = Vec::new(heap);
    for (k, arg) in env::args(&rt)?.enumerate() {
        match (k, arg.as_str()) {
            (_, "time") => timed = true,
            (0, _) => {}
            (1, number) => lookups = number.parse::<u32>().unwrap_or(0),
            (_, number) => sizes.push(number.parse::<u32>().unwrap_or(0))?,
        }
    }
    for size in &sizes {
        run(&rt, (*size).min(MOST), lookups, timed)?;
    }
    Ok(())
}

// Builds a table of a size, and asks it for keys that it has and for keys that it lacks.
fn run(rt: &HostRuntime, size: u32, lookups: u32, timed: bool) -> io::Result<()> {
    let heap = rt.alloc();
    let mut memory = Vec::new(heap);
    let mut rows = Vec::new(heap);
    for i in 0..size {
        let letters = word(i);
        memory.extend_from_slice(&letters)?;
        rows.push(Entry::new(i.wrapping_mul(16), &letters))?;
    }
    let mut heads = vec![in heap; 0u32; SLOTS]?;
    let arena = Arena { bytes: &memory };
    let Some(mut shelf) = Shelf::open(&mut heads, &mut rows, arena) else {
        return Ok(());
    };
    measure(rt, &mut shelf, lookups, timed)
}

fn measure(rt: &HostRuntime, shelf: &mut Shelf, lookups: u32, timed: bool) -> io::Result<()> {
    let size = shelf.size();
    let start = Instant::now(rt)?;
    shelf.fill();
    let filled = start.elapsed(rt)?;
    let start = Instant::now(rt)?;
    let hits = shelf.ask(0, lookups);
    let hit = start.elapsed(rt)?;
    let start = Instant::now(rt)?;
    let misses = shelf.ask(size, lookups);
    let missed = start.elapsed(rt)?;
    println!(rt; "{size} rows: sum {hits} of those held, {misses} of others")?;
    if timed {
        println!(rt;
            "  ns each: insertion {}, lookup {}, miss {}",
            each(filled.as_nanos(), size),
            each(hit.as_nanos(), lookups),
            each(missed.as_nanos(), lookups)
        )?;
    }
    Ok(())
}

fn each(nanos: u128, times: u32) -> u128 {
    if times == 0 {
        0
    } else {
        nanos / u128::from(times)
    }
}
