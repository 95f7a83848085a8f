//! A day of sessions: filled, refused, served, closed, and swept when idle.
#![tactic(auto)]

use refusals::Refusal;
use sessions::{SessionRow, Sessions};
use std::fmt::{self, Display, Formatter, Write};

// The caller numbers of the day: eight in a row share a slot while there are few slots.
fn caller(k: u16) -> u32 {
    u32::from(k) * 4096 + u32::from(k / 8)
}

// How an admission went, as it is printed.
#[derive(Drop)]
struct Admission(Result<(), Refusal>);

impl Display for Admission {
    fn fmt<W: Write>(&self, f: &mut Formatter<W>) -> fmt::Result {
        match &self.0 {
            Ok(()) => write!(f, "admitted"),
            Err(refusal) => write!(f, "refused with number {}", refusal.number()),
        }
    }
}

fn say_open(rt: &HostRuntime, sessions: &Sessions) -> anyhow::Result<()> {
    let count = sessions.count();
    print!(rt; "{count} open:")?;
    for k in 0..65 {
        if sessions.is_open(caller(k)) {
            print!(rt; " {k}")?;
        }
    }
    println!(rt; "")?;
    Ok(())
}

// One caller a second; the table of callers grows meanwhile.
fn fill(rt: &HostRuntime, sessions: &mut Sessions) -> anyhow::Result<()> {
    for k in 0..64 {
        let answer = sessions.admit(caller(k), 10 + u32::from(k));
        if answer.is_err() {
            println!(rt; "{k} {}", Admission(answer))?;
        }
        sessions.move_slot();
    }
    say_open(rt, sessions)
}

fn refuse(rt: &HostRuntime, sessions: &mut Sessions) -> anyhow::Result<()> {
    println!(rt; "{}", Admission(sessions.admit(caller(64), 75)))?;
    println!(rt; "{}", Admission(sessions.admit(caller(7), 75)))?;
    println!(rt; "{}", Admission(sessions.admit(4_194_304, 75)))?;
    say_open(rt, sessions)
}

fn serve_and_close(rt: &HostRuntime, sessions: &mut Sessions) -> anyhow::Result<()> {
    for k in [0, 9, 64] {
        let open = sessions.serve(caller(k), 80);
        println!(rt; "serve {k}: {open}")?;
    }
    for k in [1, 1, 63] {
        let open = sessions.close(caller(k));
        println!(rt; "close {k}: {open}")?;
        sessions.move_slot();
    }
    println!(rt; "{}", Admission(sessions.admit(4_194_303, 81)))?;
    say_open(rt, sessions)
}

fn sweep(rt: &HostRuntime, sessions: &mut Sessions, second: u32, limit: u16) -> anyhow::Result<()> {
    let closed = sessions.close_idle(second, limit);
    println!(rt; "idle for {limit} at {second}: {closed} closed")?;
    say_open(rt, sessions)
}

fn run(rt: &HostRuntime) -> anyhow::Result<()> {
    let few = vec![in rt.alloc(); SessionRow::default(); 63]?;
    let slots = vec![in rt.alloc(); 5u32; 64]?;
    if Sessions::open(few, slots).is_none() {
        println!(rt; "63 rows are too few")?;
    }
    let rows = vec![in rt.alloc(); SessionRow::default(); 64]?;
    let slots = vec![in rt.alloc(); 5u32; 64]?;
    let Some(mut sessions) = Sessions::open(rows, slots) else {
        return Ok(());
    };
    say_open(rt, &sessions)?;
    fill(rt, &mut sessions)?;
    refuse(rt, &mut sessions)?;
    serve_and_close(rt, &mut sessions)?;
    sweep(rt, &mut sessions, 100, 80)?;
    sweep(rt, &mut sessions, 100, 80)?;
    sweep(rt, &mut sessions, 101, 21)?;
    println!(rt; "{}", Admission(sessions.admit(caller(2), 4_294_967_295)))?;
    // this second and the limit together are past 32 bits
    sweep(rt, &mut sessions, 4_294_967_295, 1)?;
    sweep(rt, &mut sessions, 4_294_967_295, 0)
}

fn main(rt: HostRuntime) -> anyhow::Result<()> {
    run(&rt)
}
