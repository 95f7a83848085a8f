//! A store of one page under pressure: records come, are used, expire, are deleted and pushed out, and the hash table
//! grows. A plain list goes through the same, and the two are compared at every step.
#![tactic(auto)]

mod desk;
mod plainlist;

use desk::Desk;
use plainlist::{Entry, PlainList};
use plan::Plan;
use slabs::Row;
use std::alloc::AllocError;
use store::RecordStore;

/// The next of a row of numbers that look like chance.
fn next(seed: u64) -> u64 {
    seed.wrapping_mul(6_364_136_223_846_793_005)
        .wrapping_add(1_442_695_040_888_963_407)
}

// One of 90 keys.
fn key_of(number: u64) -> [u8; 4] {
    let n = (number % 90) as u8;
    [b'k', b'0' + n / 10, b'0' + n % 10, b'!']
}

// A record whose data tell when it was stored; one in four ends two to ten seconds later.
fn record(number: u64, step: u32, second: u32) -> Entry {
    let ends = number / 90 % 4 == 0;
    let expiry = ends.then(|| u64::from(second) + 2 + number / 360 % 9);
    Entry {
        key: key_of(number),
        data: [(step % 251) as u8; 40],
        expiry,
    }
}

// What is done at a step: in ten, six are stored, three are asked for, one is deleted. Says whether store and list agree.
fn act(desk: &mut Desk, chance: u64, step: u32) -> Result<bool, AllocError> {
    let second = step / 4;
    let number = chance / 1024;
    match chance / 64 % 10 {
        0..=5 => desk.keep(record(number, step, second), second),
        6..=8 => desk.ask(key_of(number), second),
        _ => Ok(desk.forget(key_of(number), second)),
    }
}

fn say(rt: &HostRuntime, desk: &Desk, step: u32, agreed: u32) -> anyhow::Result<()> {
    let (tally, same) = desk.figures();
    let counts = tally.counts;
    let held = tally.held;
    let slots = tally.slots;
    let evicted = counts.evicted;
    let expired = counts.expired;
    let replaced = counts.replaced;
    let deleted = counts.deleted;
    println!(rt;
        "step {step}: {held} held, {evicted} evicted, {expired} expired, {replaced} replaced, {deleted} deleted, {slots} slots; {agreed} steps agree, counts agree: {same}"
    )?;
    Ok(())
}

// Goes through all steps.
fn play(rt: &HostRuntime, desk: &mut Desk) -> anyhow::Result<()> {
    let mut chance = 2026u64;
    let mut agreed = 0u32;
    for step in 0..4000u32 {
        chance = next(chance);
        if act(desk, chance, step)? {
            agreed = agreed.wrapping_add(1);
        }
        desk.move_slot();
        if step % 500 == 499 {
            say(rt, desk, step + 1, agreed)?;
        }
    }
    desk.flush();
    let left = desk.figures().0.held;
    println!(rt; "after the flush: {left} held")?;
    Ok(())
}

fn run(rt: &HostRuntime) -> anyhow::Result<()> {
    let plan = Plan::new(96, 125)?;
    let memory = vec![in rt.alloc(); 0xaau8; 4096]?;
    let rows = vec![in rt.alloc(); Row::blank(); 85]?;
    let slots = vec![in rt.alloc(); 7u32; 64]?;
    let store = RecordStore::open(plan, rows, slots);
    let list = PlainList::new(rt.alloc());
    let mut desk = Desk {
        store,
        memory,
        list,
    };
    play(rt, &mut desk)
}

fn main(rt: HostRuntime) -> anyhow::Result<()> {
    run(&rt)
}
