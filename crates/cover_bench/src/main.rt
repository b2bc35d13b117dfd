//! Reads correspondence tables, and asks which row covers each row's state after a change of each of its pins:
//! `cover_bench FILE [TIMES]`, once or so many times. Each change makes a pin 1 that is 0, and 0 any other.
#![tactic(auto)]

use correspondence::{RowIndex, Table, Tables, read_tables};
use std::alloc::{AllocError, Global};
use std::{env, fs};
use tern_core::Tern;
use text_scan::{Limits, NoMemory};

/// How often a table was asked, and how many of the rows were found.
#[derive(Clone, Copy, Debug, Drop)]
struct Count {
    asked: u64,
    found: u64,
}

impl Count {
    fn add(&mut self, row: Option<usize>) {
        self.asked = self.asked.saturating_add(1);
        if row.is_some() {
            self.found = self.found.saturating_add(1);
        }
    }
}

fn changed(value: Tern) -> Tern {
    match value {
        Tern::Zero => Tern::One,
        _ => Tern::Zero,
    }
}

/// Asks for the state of each row with each of its pins changed.
fn ask(alloc: Global, table: &Table, count: &mut Count) -> Result<(), NoMemory> {
    let index = RowIndex::new(alloc, table)?;
    for row in table.rows.as_slice() {
        let mut pins = row.pins.as_slice().to_vec(alloc)?;
        for k in 0..pins.len() {
            let old = pins[k];
            pins[k] = changed(old);
            count.add(index.cover(
                table,
                &pins,
                row.liberty.as_slice(),
                row.udps.as_slice(),
                row.nodes.as_slice(),
            ));
            pins[k] = old;
        }
    }
    Ok(())
}

fn ask_all(alloc: Global, tables: &Tables) -> Result<Count, NoMemory> {
    let mut count = Count { asked: 0, found: 0 };
    for table in tables.tables.as_slice() {
        ask(alloc, table, &mut count)?;
    }
    Ok(count)
}

fn rows_of(tables: &Tables) -> u64 {
    let mut rows = 0u64;
    for table in tables.tables.as_slice() {
        rows = rows.saturating_add(table.rows.len() as u64);
    }
    rows
}

fn main(rt: HostRuntime) -> Result<(), anyhow::Error> {
    let mut words = env::args(&rt)?.skip(1);
    let Some(path) = words.next() else {
        println!(rt; "usage: cover_bench FILE [TIMES]")?;
        return Ok(());
    };
    let times = match words.next() {
        Some(word) => word.as_str().parse::<u32>()?,
        None => 1,
    };
    let text = fs::read(&rt, path.as_str())?;
    match read_tables(rt.alloc(), &text, &Limits::standard()) {
        Ok(tables) => {
            println!(rt; "{} tables, {} rows", tables.tables.len(), rows_of(&tables))?;
            for _ in 0..times {
                let count = ask_all(rt.alloc(), &tables).map_err(|_| AllocError)?;
                println!(rt; "{} asked, {} found", count.asked, count.found)?;
            }
        }
        Err(refusal) => println!(rt; "refused: {refusal:?}")?,
    }
    Ok(())
}
