//! Reads each text of some files as correspondence tables and prints what the reader answers: `correspondence_rows FILE..`.
//! Texts are parted by `%`. Behind each row stands the number of the row that covers its own values, and of the one that
//! covers them where the nodes that it leaves unknown are 1. Of the first text of each file all beginnings are read too:
//! those that are accepted and those that are refused where they end are counted, and the others shown.
#![tactic(auto)]

use anyhow::Result;
use correspondence::{Row, RowIndex, Table, Tables, cover, read_tables};
use std::alloc::{Alloc, AllocError, Global};
use std::io::Print;
use std::{env, fs};
use tern_core::Tern;
use text_scan::{FileRefusal, Limits, NoMemory, Text};

fn shown(alloc: Global, text: &Text) -> Result<String> {
    Ok(String::from_utf8(text.as_bytes().to_vec(alloc)?)?)
}

fn show_names<R: Print + Alloc<A = Global>>(
    rt: &R,
    word: &str,
    line: u32,
    names: &[Text],
) -> Result<()> {
    print!(rt; "  {word} at line {line}:")?;
    for name in names {
        print!(rt; " {}", shown(rt.alloc(), name)?)?;
    }
    println!(rt; "")?;
    Ok(())
}

fn show_values<R: Print + Alloc<A = Global>>(rt: &R, values: &[Tern]) -> Result<()> {
    match values {
        [] => print!(rt; " -")?,
        _ => {
            print!(rt; " ")?;
            for value in values {
                print!(rt; "{value}")?;
            }
        }
    }
    Ok(())
}

/// The number of a row, by its place.
fn show_number<R: Print + Alloc<A = Global>>(rt: &R, place: Option<usize>) -> Result<()> {
    match place {
        Some(place) => print!(rt; " {}", place.saturating_add(1))?,
        None => print!(rt; " none")?,
    }
    Ok(())
}

/// These values, and 1 in place of an unknown one.
fn with_ones(alloc: Global, values: &[Tern]) -> Result<Vec<Tern>, AllocError> {
    let known = values.iter().map(|value| match value {
        Tern::Unknown => Tern::One,
        known => *known,
    });
    known.collect(alloc)
}

/// The places of the first rows that cover.
#[derive(Clone, Copy, Drop)]
struct Places {
    own: Option<usize>,
    known: Option<usize>,
}

/// For each row the one that covers its own values, and the one that covers them where unknown nodes are 1.
fn places_of(alloc: Global, table: &Table) -> Result<Vec<Places>, NoMemory> {
    let index = RowIndex::new(alloc, table)?;
    let mut places = Vec::new(alloc);
    for row in table.rows.as_slice() {
        let (pins, liberty) = (row.pins.as_slice(), row.liberty.as_slice());
        let (udps, nodes) = (row.udps.as_slice(), row.nodes.as_slice());
        let known = with_ones(alloc, nodes)?;
        places.push(Places {
            own: cover(table, pins, liberty, udps, nodes),
            known: index.cover(table, pins, liberty, udps, &known),
        })?;
    }
    Ok(places)
}

fn show_row<R: Print + Alloc<A = Global>>(rt: &R, row: &Row, places: Places) -> Result<()> {
    print!(rt; "  row at line {}:", row.line)?;
    for values in [&row.pins, &row.liberty, &row.udps, &row.nodes] {
        show_values(rt, values.as_slice())?;
    }
    print!(rt; " covered by")?;
    show_number(rt, places.own)?;
    show_number(rt, places.known)?;
    println!(rt; "")?;
    Ok(())
}

fn show_rows<R: Print + Alloc<A = Global>>(rt: &R, table: &Table) -> Result<()> {
    let places = places_of(rt.alloc(), table).map_err(|_| AllocError)?;
    for (row, places) in table.rows.as_slice().iter().zip(places.iter()) {
        show_row(rt, row, *places)?;
    }
    Ok(())
}

fn show_table<R: Print + Alloc<A = Global>>(rt: &R, table: &Table) -> Result<()> {
    let name = shown(rt.alloc(), &table.cell)?;
    println!(rt; " {name} at line {}", table.line)?;
    let [pins, state, udps, nodes] = table.lines;
    show_names(rt, "pins", pins, table.pins.as_slice())?;
    if table.xline != 0 || !table.xpins.as_slice().is_empty() {
        show_names(rt, "xpins", table.xline, table.xpins.as_slice())?;
    }
    show_names(rt, "state", state, table.state.as_slice())?;
    show_names(rt, "udps", udps, table.udps.as_slice())?;
    show_names(rt, "nodes", nodes, table.nodes.as_slice())?;
    show_rows(rt, table)
}

fn show_tables<R: Print + Alloc<A = Global>>(rt: &R, tables: &Tables) -> Result<()> {
    println!(rt; "tables")?;
    for table in tables.tables.as_slice() {
        show_table(rt, table)?;
    }
    Ok(())
}

fn show_refusal<R: Print + Alloc<A = Global>>(rt: &R, refusal: &FileRefusal) -> Result<()> {
    match refusal {
        FileRefusal::NoMemory => println!(rt; "no memory")?,
        FileRefusal::Syntax { line, column } => {
            println!(rt; "syntax at line {line} column {column}")?;
        }
        FileRefusal::TooMany { kind, number } => println!(rt; "too many {kind}, {number}")?,
        FileRefusal::DoubleName { name, line } => {
            let name = shown(rt.alloc(), name)?;
            println!(rt; "{name} again at line {line}")?;
        }
    }
    Ok(())
}

fn show<R: Print + Alloc<A = Global>>(rt: &R, text: &[u8]) -> Result<()> {
    match read_tables(rt.alloc(), text, &Limits::standard()) {
        Ok(tables) => show_tables(rt, &tables),
        Err(refusal) => show_refusal(rt, &refusal),
    }
}

type Spot = (u32, u32);

/// What is answered to a beginning.
#[derive(Clone, Copy, Drop)]
enum Answer {
    Accepted,
    Syntax(Spot),
    Other,
}

fn answer_to(alloc: Global, text: &[u8]) -> Answer {
    match read_tables(alloc, text, &Limits::standard()) {
        Ok(_) => Answer::Accepted,
        Err(FileRefusal::Syntax { line, column }) => Answer::Syntax((line, column)),
        Err(_) => Answer::Other,
    }
}

/// The line and the column after a text that has the byte, where this is the one before.
fn after(spot: Spot, byte: u8) -> Spot {
    match byte {
        b'\n' => (spot.0.saturating_add(1), 1),
        _ => (spot.0, spot.1.saturating_add(1)),
    }
}

fn show_beginnings<R: Print + Alloc<A = Global>>(rt: &R, text: &[u8]) -> Result<()> {
    let mut end = (1, 1);
    let mut accepted = 0u64;
    let mut at_ends = 0u64;
    for length in 0..text.len() {
        match answer_to(rt.alloc(), &text[..length]) {
            Answer::Accepted => accepted = accepted.saturating_add(1),
            Answer::Syntax(spot) if spot == end => at_ends = at_ends.saturating_add(1),
            Answer::Syntax((line, column)) => {
                println!(rt; "{length} bytes: syntax at line {line} column {column}")?;
            }
            Answer::Other => println!(rt; "{length} bytes: another answer")?,
        }
        end = after(end, text[length]);
    }
    println!(rt; "{accepted} beginnings: accepted")?;
    println!(rt; "{at_ends} beginnings: syntax at their ends")?;
    Ok(())
}

fn show_file<R: Print + Alloc<A = Global>>(rt: &R, texts: &[u8]) -> Result<()> {
    let mut first = true;
    for text in texts.split(|byte| *byte == b'%') {
        show(rt, text)?;
        if first {
            show_beginnings(rt, text)?;
        }
        first = false;
    }
    Ok(())
}

fn main(rt: HostRuntime) -> Result<()> {
    for path in env::args(&rt)?.skip(1) {
        show_file(&rt, &fs::read(&rt, path.as_str())?)?;
    }
    Ok(())
}
