//! Walks Liberty cells through values of their input pins, from unknown pins and an unknown state, and prints the outputs
//! and the state after each: `meaning_walk FILE [CELL:VALUES,VALUES..]..`, where VALUES has 0, 1 or X for each input pin.
#![tactic(auto)]

use anyhow::Result;
use liberty_meaning::{Behaviour, compile};
use liberty_reader::{CellPart, LibertyCell, Library, read_library};
use std::alloc::{Alloc, Global};
use std::io::Print;
use std::{env, fs};
use tern_core::Tern;
use text_scan::Limits;

fn value_of(symbol: u8) -> Tern {
    match symbol {
        b'0' => Tern::Zero,
        b'1' => Tern::One,
        _ => Tern::Unknown,
    }
}

fn values_of(alloc: Global, symbols: &str) -> Result<Vec<Tern>> {
    let mut values = Vec::new(alloc);
    for symbol in symbols.as_bytes() {
        values.push(value_of(*symbol))?;
    }
    Ok(values)
}

fn unknown(alloc: Global, length: usize) -> Result<Vec<Tern>> {
    Ok(vec![in alloc; Tern::Unknown; length]?)
}

/// The values as symbols, or `-` where there is none.
fn symbols_of(alloc: Global, values: &[Tern]) -> Result<String> {
    let mut symbols = String::new(alloc);
    for value in values {
        symbols.push_str(value.symbol())?;
    }
    if symbols.as_str().is_empty() {
        symbols.push_str("-")?;
    }
    Ok(symbols)
}

fn outputs(
    alloc: Global,
    behaviour: &Behaviour,
    pins: &[Tern],
    state: &[Tern],
) -> Result<Vec<Tern>> {
    let mut values = Vec::new(alloc);
    for k in 0..behaviour.outputs() {
        values.push(behaviour.output(pins, state, k))?;
    }
    Ok(values)
}

fn walk<R: Print + Alloc<A = Global>>(rt: &R, behaviour: &Behaviour, steps: &str) -> Result<()> {
    let alloc = rt.alloc();
    let mut pins = unknown(alloc, behaviour.inputs())?;
    let mut state = unknown(alloc, behaviour.states())?;
    for step in steps.split(',') {
        let new = values_of(alloc, step)?;
        behaviour.next(&pins, &new, &mut state);
        pins = new;
        let shown = symbols_of(alloc, &outputs(alloc, behaviour, &pins, &state)?)?;
        let kept = symbols_of(alloc, &state)?;
        println!(rt; "{step} gives {shown} with state {kept}")?;
    }
    Ok(())
}

fn show<R: Print + Alloc<A = Global>>(rt: &R, cell: &LibertyCell, steps: &str) -> Result<()> {
    match compile(rt.alloc(), cell) {
        Ok(behaviour) => walk(rt, &behaviour, steps),
        Err(refusal) => {
            println!(rt; "refused: {refusal:?}")?;
            Ok(())
        }
    }
}

fn cell_of<'a>(library: &'a Library, name: &str) -> Option<&'a LibertyCell> {
    for part in library.cells.as_slice() {
        if let CellPart::Whole(cell) = part {
            if cell.name.as_bytes() == name.as_bytes() {
                return Some(cell);
            }
        }
    }
    None
}

fn show_word<R: Print + Alloc<A = Global>>(rt: &R, library: &Library, word: &str) -> Result<()> {
    let mut parts = word.split(':');
    let name = parts.next().unwrap_or("");
    let steps = parts.next().unwrap_or("");
    println!(rt; "{name}")?;
    match cell_of(library, name) {
        Some(cell) => show(rt, cell, steps),
        None => {
            println!(rt; "no such cell")?;
            Ok(())
        }
    }
}

fn main(rt: HostRuntime) -> Result<()> {
    let mut words = env::args(&rt)?.skip(1);
    let Some(path) = words.next() else {
        println!(rt; "usage: meaning_walk FILE [CELL:VALUES,VALUES..]..")?;
        return Ok(());
    };
    let text = fs::read(&rt, path.as_str())?;
    let library = match read_library(rt.alloc(), &text, &Limits::standard()) {
        Ok(library) => library,
        Err(refusal) => {
            println!(rt; "refused: {refusal:?}")?;
            return Ok(());
        }
    };
    for word in words {
        show_word(&rt, &library, word.as_str())?;
    }
    Ok(())
}
