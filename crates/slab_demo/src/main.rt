//! Fills classes page by page, takes, returns, removes and refills, and compares every record with its copy after each step.
#![tactic(auto)]

use plan::Plan;
use slabs::{Row, Tally};
use std::io;

mod desk;

use desk::Desk;

// Says what was done, what the counts of a class are now, and whether all records agree with their copies.
fn tell(rt: &HostRuntime, what: &str, desk: &Desk, class: usize) -> io::Result<()> {
    let Tally {
        pages,
        free,
        granted,
        used,
    } = desk.tally(class);
    let left = desk.free_pages();
    let good = desk.agrees();
    println!(rt;
        "{what}; class {class}: pages {pages}, free {free}, granted {granted}, used {used}; pages left {left}; agree {good}"
    )
}

// Gives a page to a class, and fills it.
fn page(rt: &HostRuntime, desk: &mut Desk, class: usize, first: u8) -> io::Result<()> {
    let given = desk.give_page(class);
    println!(rt; "page {given}")?;
    tell(rt, "given", desk, class)?;
    let stored = desk.fill(class, first)?;
    println!(rt; "stored {stored}")?;
    tell(rt, "filled", desk, class)
}

// All pages are given out and filled; then records leave, a grant is returned, and the chunks are filled again.
fn play(rt: &HostRuntime, desk: &mut Desk) -> io::Result<()> {
    let early = desk.borrow_chunk(1);
    println!(rt; "chunk without a page {early}")?;
    page(rt, desk, 1, 10)?;
    page(rt, desk, 1, 20)?;
    page(rt, desk, 2, 30)?;
    page(rt, desk, 1, 40)?;
    let full = desk.borrow_chunk(1);
    println!(rt; "chunk of a full class {full}")?;
    let first = desk.forget(5);
    let second = desk.forget(0);
    println!(rt; "removed {first} {second}")?;
    tell(rt, "removed", desk, 1)?;
    let lent = desk.borrow_chunk(1);
    println!(rt; "chunk after a removal {lent}")?;
    tell(rt, "returned", desk, 1)?;
    let stored = desk.fill(1, 50)?;
    println!(rt; "stored {stored}")?;
    tell(rt, "refilled", desk, 1)
}

fn main(rt: HostRuntime) -> io::Result<()> {
    // what is missing is said where results are said, and is no failure of the run
    let Ok(plan) = Plan::new(1024, 200) else {
        return println!(rt; "no plan");
    };
    let rows = vec![in rt.alloc(); Row::blank(); 255]?;
    let memory = vec![in rt.alloc(); 0u8; 12288]?;
    let copies = Vec::new(rt.alloc());
    let Some(mut desk) = Desk::open(&plan, rows, memory, copies) else {
        return println!(rt; "too little memory");
    };
    play(&rt, &mut desk)
}
