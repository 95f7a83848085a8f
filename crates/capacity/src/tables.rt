// The tables before and after the kinds of records.
use crate::arguments::Asked;
use crate::columns::write_cells;
use crate::kinds::LeftOut;
use plan::Plan;
use sizing::{Load, Shortage, Tally};
use std::io;
use std::io::{BufWriter, Stdout, Write};

pub fn write_plan(out: &mut BufWriter<Stdout>, plan: &Plan, asked: &Asked) -> io::Result<()> {
    let first = asked.first;
    let percent = asked.percent;
    let classes = plan.classes();
    writeln!(
        out,
        "The plan of first size {first} and percent {percent}: {classes} classes.\n"
    )?;
    writeln!(out, "   class  chunk size  chunks a page  left over")?;
    for class in 1..=classes {
        write_class(out, plan, class)?;
    }
    writeln!(out, "")
}

fn write_class(out: &mut BufWriter<Stdout>, plan: &Plan, class: usize) -> io::Result<()> {
    let size = plan.size(class).unwrap_or(0);
    let chunks = plan.chunks_per_page(class).unwrap_or(0);
    let left = plan.left_over(class).unwrap_or(0);
    write_cells(
        out,
        &[
            (class as u128, 8),
            (size as u128, 12),
            (chunks as u128, 15),
            (left as u128, 11),
        ],
    )?;
    writeln!(out, "")
}

// A row for each class that has records.
pub fn write_classes(out: &mut BufWriter<Stdout>, plan: &Plan, tally: &Tally) -> io::Result<()> {
    writeln!(
        out,
        "   class               records                  chunks                 pages    filled"
    )?;
    for class in 1..=plan.classes() {
        if let Some(load) = tally.load(class)
            && load.records > 0
        {
            write_load(out, class, load)?;
        }
    }
    writeln!(out, "")
}

fn write_load(out: &mut BufWriter<Stdout>, class: usize, load: Load) -> io::Result<()> {
    write_cells(
        out,
        &[
            (class as u128, 8),
            (load.records as u128, 22),
            (load.chunks, 24),
            (load.pages, 22),
            (load.share / 10, 6),
        ],
    )?;
    let tenth = load.share % 10;
    writeln!(out, ".{tenth} %")
}

pub fn write_account(
    out: &mut BufWriter<Stdout>,
    tally: &Tally,
    pages: u64,
    left_out: LeftOut,
) -> io::Result<()> {
    let needed = tally.pages_in_all();
    writeln!(out, "Pages needed: {needed}\nPages given: {pages}")?;
    let missing = needed.saturating_sub(pages as u128);
    write_verdict(out, tally.account(pages), missing)?;
    let too_large = left_out.too_large;
    let lines = left_out.lines;
    writeln!(
        out,
        "Kinds of records too large for any chunk: {too_large}\nLines left out: {lines}"
    )
}

fn write_verdict(
    out: &mut BufWriter<Stdout>,
    account: Result<u128, Shortage>,
    missing: u128,
) -> io::Result<()> {
    match account {
        Ok(spare) => {
            writeln!(
                out,
                "The pages given hold every record above that has a class, with nothing pushed out; {spare} to spare."
            )
        }
        Err(shortage) => {
            writeln!(
                out,
                "The pages given do not suffice, {missing} are missing: {shortage}."
            )
        }
    }
}
