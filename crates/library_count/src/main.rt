//! Reads a Liberty file and counts what it has: `library_count FILE`.
#![tactic(auto)]

use liberty_reader::{CellPart, Library, read_library};
use std::{env, fs};
use text_scan::Limits;

/// How many pins the cells have that are read.
fn pins_of(library: &Library) -> u64 {
    let mut pins = 0u64;
    for part in library.cells.as_slice() {
        if let CellPart::Whole(cell) = part {
            pins = pins.saturating_add(cell.pins.len() as u64);
        }
    }
    pins
}

fn main(rt: HostRuntime) -> Result<(), anyhow::Error> {
    let mut words = env::args(&rt)?.skip(1);
    let Some(path) = words.next() else {
        println!(rt; "usage: library_count FILE")?;
        return Ok(());
    };
    let text = fs::read(&rt, path.as_str())?;
    match read_library(rt.alloc(), &text, &Limits::standard()) {
        Ok(library) => {
            let cells = library.cells.len();
            let pins = pins_of(&library);
            println!(rt; "{cells} cells, {pins} pins")?;
        }
        Err(refusal) => println!(rt; "refused: {refusal:?}")?,
    }
    Ok(())
}
