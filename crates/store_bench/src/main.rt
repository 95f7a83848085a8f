//! What a store under eviction and a lookup cost in stores of several sizes: `store_bench TIMES PAGES..`, and `time` for the times.
#![tactic(auto)]

mod bench;

use bench::Bench;
use plan::Plan;
use slabs::Row;
use std::env;
use std::time::Instant;
use store::RecordStore;

/// The most pages of a store.
const MOST: usize = 256;

fn main(rt: HostRuntime) -> anyhow::Result<()> {
    let mut times = 0u32;
    let mut timed = false;
    let mut sizes: Vec<usize> = Vec::new(rt.alloc());
    for (k, arg) in env::args(&rt)?.enumerate() {
        match (k, arg.as_str()) {
            (_, "time") => timed = true,
            (0, _) => {}
            (1, number) => times = number.parse::<u32>()?,
            (_, number) => sizes.push(number.parse::<usize>()?.min(MOST))?,
        }
    }
    for pages in &sizes {
        run(&rt, *pages, times, timed)?;
    }
    Ok(())
}

// Opens a store of so many pages, and measures it.
fn run(rt: &HostRuntime, pages: usize, times: u32, timed: bool) -> anyhow::Result<()> {
    let plan = Plan::new(96, 125)?;
    let rows = vec![in rt.alloc(); Row::blank(); pages.saturating_mul(85)]?;
    let memory = vec![in rt.alloc(); 0u8; pages.saturating_mul(4096)]?;
    let slots = vec![in rt.alloc(); 0u32; 16_384]?;
    let Some(mut bench) = Bench::open(RecordStore::open(plan, rows, slots), memory) else {
        return Ok(());
    };
    measure(rt, &mut bench, times, timed)
}

// Fills the store, and then stores records each of which pushes another out, and asks for keys that are held and for others.
fn measure(rt: &HostRuntime, bench: &mut Bench, times: u32, timed: bool) -> anyhow::Result<()> {
    let room = bench.room();
    bench.fill(0, room);
    let start = Instant::now(rt)?;
    let kept = bench.fill(room, times);
    let stored = start.elapsed(rt)?;
    let start = Instant::now(rt)?;
    let hits = bench.ask(times, times);
    let hit = start.elapsed(rt)?;
    let start = Instant::now(rt)?;
    let misses = bench.ask(times.wrapping_add(room), times);
    let missed = start.elapsed(rt)?;
    let (held, evicted) = bench.figures();
    let pages = bench.pages();
    println!(rt;
        "{pages} pages: {held} held, {kept} stored, {evicted} evicted, {hits} found, {misses} of others"
    )?;
    if timed {
        let turns = times.max(1);
        println!(rt;
            "  ns each: store {}, lookup {}, miss {}",
            (stored / turns).as_nanos(),
            (hit / turns).as_nanos(),
            (missed / turns).as_nanos()
        )?;
    }
    Ok(())
}
