// Rows of numbers that stand in columns.
use std::io;
use std::io::{BufWriter, Stdout, Write};

// Writes each number at the right end of its column. Beside it stands the column's width, with the spaces in front
// of the column.
pub fn write_cells(out: &mut BufWriter<Stdout>, cells: &[(u128, usize)]) -> io::Result<()> {
    for &(number, width) in cells {
        write!(out, "{number:>width$}")?;
    }
    Ok(())
}
