use anyhow::{Context, ensure};
use std::env;

const USAGE: &str =
    "capacity FIRST-SIZE PERCENT PAGES, three numbers; kinds of records on standard input";

// What the command line asks for.
#[derive(Clone, Copy)]
pub struct Asked {
    pub first: u64,
    pub percent: u64,
    pub pages: u64,
}

fn number(word: Option<String>) -> anyhow::Result<u64> {
    word.and_then(|word| word.as_str().parse().ok())
        .context(USAGE)
}

pub fn read(rt: &HostRuntime) -> anyhow::Result<Asked> {
    let mut words = env::args(rt)?;
    let _ = words.next();
    let first = number(words.next())?;
    let percent = number(words.next())?;
    let pages = number(words.next())?;
    ensure!(words.next().is_none(), "{USAGE}");
    Ok(Asked {
        first,
        percent,
        pages,
    })
}
