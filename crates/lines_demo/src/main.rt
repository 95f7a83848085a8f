//! Reads requests in a readable notation, one to a line of standard input, and writes what each of them says.
//!
//! In a request `\r`, `\n` and `\t` are those bytes, `\xHH` is a byte in hexadecimal, `\\` a backslash, and `\(N)` says that the byte
//! before it stands N times.

#![tactic(auto)]

mod notation;
mod sayings;

use notation::decoded;
use sayings::Saying;
use std::io;

fn main(rt: HostRuntime) -> io::Result<()> {
    for (before, line) in rt.lines(rt.alloc()).enumerate() {
        let text = line?;
        let bytes = decoded(rt.alloc(), text.as_bytes())?;
        println!(rt; "{} {}", before + 1, Saying(&bytes))?;
    }
    Ok(())
}
