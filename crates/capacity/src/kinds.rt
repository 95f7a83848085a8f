// Reading the kinds of records, a line each, and a row for each line.
use crate::columns::write_cells;
use plan::need;
use sizing::{Kind, Tally, Unplaced};
use std::fmt::Display;
use std::io;
use std::io::{BufRead, BufReader, BufWriter, Stdout, Write};

// What does not count in the account.
#[derive(Clone, Copy, Default)]
pub struct LeftOut {
    // lines that were left out
    pub lines: u64,
    // kinds of records that no chunk holds
    pub too_large: u64,
}

impl LeftOut {
    // Counts a kind of record where it went nowhere.
    fn note(&mut self, placed: Result<usize, Unplaced>) {
        match placed {
            Ok(_) => {}
            Err(Unplaced::TooLarge) => self.too_large = self.too_large.saturating_add(1),
            Err(Unplaced::Uncountable) => self.lines = self.lines.saturating_add(1),
        }
    }
}

// The line's number, and the kind that it tells of.
fn write_kind(out: &mut BufWriter<Stdout>, line: u64, kind: Kind) -> io::Result<()> {
    let bytes = need(kind.key, kind.block);
    write_cells(
        out,
        &[
            (line as u128, 8),
            (kind.key as u128, 11),
            (kind.block as u128, 12),
            (kind.count as u128, 22),
            (bytes as u128, 8),
        ],
    )
}

fn write_left_out(
    out: &mut BufWriter<Stdout>,
    line: u64,
    why: impl Display + Drop,
) -> io::Result<()> {
    writeln!(out, "{line:>8}  left out: {why}")
}

fn write_row(
    out: &mut BufWriter<Stdout>,
    line: u64,
    kind: Kind,
    placed: Result<usize, Unplaced>,
) -> io::Result<()> {
    match placed {
        Ok(class) => {
            write_kind(out, line, kind)?;
            writeln!(out, "  {class:>9}")
        }
        Err(Unplaced::TooLarge) => {
            write_kind(out, line, kind)?;
            let why = Unplaced::TooLarge;
            writeln!(out, "  {why}")
        }
        Err(Unplaced::Uncountable) => write_left_out(out, line, Unplaced::Uncountable),
    }
}

// Adds the kind that a line tells of, or leaves the line out, and writes its row. The output and the tally are lent side by side:
// one is of the run, the other of the account, and nothing else takes both.
fn take_line(
    out: &mut BufWriter<Stdout>,
    tally: &mut Tally,
    left_out: &mut LeftOut,
    number: u64,
    line: &[u8],
) -> io::Result<()> {
    match Kind::read(line) {
        Ok(kind) => {
            let placed = tally.add(kind);
            left_out.note(placed);
            write_row(out, number, kind, placed)
        }
        Err(fault) => {
            left_out.lines = left_out.lines.saturating_add(1);
            write_left_out(out, number, fault)
        }
    }
}

// Reads every line in one pass; what it keeps does not grow with them.
fn read_lines(
    rt: &HostRuntime,
    out: &mut BufWriter<Stdout>,
    tally: &mut Tally,
) -> io::Result<LeftOut> {
    let mut input = BufReader::new(rt.alloc(), rt.stdin())?;
    let mut line: Vec<u8> = Vec::new(rt.alloc());
    let mut left_out = LeftOut::default();
    for number in 1..u64::MAX {
        line.clear();
        if input.read_until(b'\n', &mut line)? == 0 {
            break;
        }
        take_line(out, tally, &mut left_out, number, line.as_slice())?;
    }
    Ok(left_out)
}

// The table of the kinds of records, a row for each line that is read.
pub fn read(
    rt: &HostRuntime,
    out: &mut BufWriter<Stdout>,
    tally: &mut Tally,
) -> io::Result<LeftOut> {
    writeln!(
        out,
        "    line  key-bytes  data-bytes                 count    need      class"
    )?;
    let left_out = read_lines(rt, out, tally)?;
    writeln!(out, "")?;
    Ok(left_out)
}
