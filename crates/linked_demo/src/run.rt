//! A run over a table, whose answers are checked against a simple list.

use crate::draws::Draws;
use crate::plain::Plain;
use crate::table::{Order, Table};
use crate::{RANGE, STEPS};
use std::alloc::Global;
use std::io;

/// A table with the simple list beside it, and how many answers of the table the list contradicts.
#[derive(Drop)]
pub struct Run<T> {
    table: T,
    plain: Plain,
    draws: Draws,
    asked: u32,
    found: u32,
    wrong: u32,
}

impl<T: Table + Drop> Run<T> {
    pub fn new(heap: Global, table: T, seed: u32) -> Run<T> {
        Run {
            table,
            plain: Plain::new(heap),
            draws: Draws::new(seed),
            asked: 0,
            found: 0,
            wrong: 0,
        }
    }

    /// Enters each row once, then enters, lets go and uses rows by lot, then lets each row go that is held.
    pub fn go(mut self, rt: &HostRuntime) -> io::Result<()> {
        self.play(|run, turn| run.toggle(turn));
        self.say(rt)?;
        self.play(|run, _| run.stir());
        self.say(rt)?;
        self.play(|run, turn| {
            if run.plain.contains(turn) {
                run.toggle(turn);
            }
        });
        self.say(rt)?;
        println!(rt;
            "{}: {} asked, {} found, {} wrong",
            self.table.name(),
            self.asked,
            self.found,
            self.wrong
        )
    }

    // Takes a step for each row, and asks for a key after each.
    fn play<F: Fn(&mut Run<T>, u32)>(&mut self, step: F)
        requires { F.IsAlwaysCallable step }
    {
        for turn in 0..STEPS {
            step(self, turn);
            self.ask();
        }
    }

    fn toggle(&mut self, i: u32) {
        if let Some(held) = self.table.toggle(i) {
            if held {
                // where memory fails, the next answer counts as wrong
                let _ = self.plain.add(i);
            } else {
                self.plain.remove(i);
            }
        }
    }

    // Uses a row by lot, or enters it or lets it go.
    fn stir(&mut self) {
        let i = self.draws.below(STEPS);
        if self.draws.below(2) == 1 {
            self.table.use_row(i);
            if self.plain.contains(i) {
                self.plain.remove(i);
                let _ = self.plain.add(i);
            }
        } else {
            self.toggle(i);
        }
    }

    // Asks for the key of a number by lot: of a row, or of none.
    fn ask(&mut self) {
        let number = self.draws.below(RANGE);
        let answer = self.table.find(number);
        let right = self.plain.contains(number).then_some(number);
        self.asked = self.asked.wrapping_add(1);
        if answer.is_some() {
            self.found = self.found.wrapping_add(1);
        }
        if answer != right {
            self.wrong = self.wrong.wrapping_add(1);
        }
    }

    // Each line goes out in one write.
    fn say(&self, rt: &HostRuntime) -> io::Result<()> {
        let name = self.table.name();
        let held = self.plain.len();
        let (slots, unmoved) = self.table.size();
        match self.table.walk(&self.plain) {
            Some(Order { sum, wrong }) => println!(rt;
                "{name}: {held} held, {slots} slots, {unmoved} unmoved, order {sum} with {wrong} wrong"
            ),
            None => println!(rt; "{name}: {held} held, {slots} slots, {unmoved} unmoved"),
        }
    }
}
