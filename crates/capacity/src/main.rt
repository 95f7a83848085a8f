// How many pages a table needs for the records that a customer has.
#![tactic(auto)]

mod arguments;
mod columns;
mod kinds;
mod tables;

use arguments::Asked;
use plan::Plan;
use refusals::Refusal;
use sizing::{Tally, pages_given};
use std::io;
use std::io::{BufWriter, Write};

// The lawful plan of what was asked for. A number beyond 32 bits makes none.
fn plan_of(asked: &Asked) -> Result<Plan, Refusal> {
    let first = u32::try_from(asked.first).map_err(|_| Refusal::Plan)?;
    let percent = u32::try_from(asked.percent).map_err(|_| Refusal::Plan)?;
    Plan::new(first, percent)
}

// Writes the tables, and reads the kinds of records on the way.
fn write_tables(rt: &HostRuntime, asked: &Asked, plan: Plan, pages: u64) -> io::Result<()> {
    let mut out = BufWriter::new(rt.alloc(), rt.stdout())?;
    tables::write_plan(&mut out, &plan, asked)?;
    let mut tally = Tally::new(plan);
    let left_out = kinds::read(rt, &mut out, &mut tally)?;
    tables::write_classes(&mut out, &plan, &tally)?;
    tables::write_account(&mut out, &tally, pages, left_out)?;
    out.flush()
}

fn run(rt: &HostRuntime) -> anyhow::Result<()> {
    let asked = arguments::read(rt)?;
    let plan = plan_of(&asked)?;
    let pages = pages_given(asked.pages)?;
    Ok(write_tables(rt, &asked, plan, pages)?)
}

fn main(rt: HostRuntime) -> anyhow::Result<()> {
    run(&rt)
}
