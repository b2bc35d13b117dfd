//! Reads a LEF file and counts what it has: `lef_count FILE`.
#![tactic(auto)]

use lef_reader::{Lef, MacroPart, read_lef};
use std::{env, fs};
use text_scan::Limits;

/// How many pins the macros have that are read.
fn pins_of(lef: &Lef) -> u64 {
    let mut pins = 0u64;
    for part in lef.macros.as_slice() {
        if let MacroPart::Whole(found) = part {
            pins = pins.saturating_add(found.pins.len() as u64);
        }
    }
    pins
}

fn main(rt: HostRuntime) -> Result<(), anyhow::Error> {
    let mut words = env::args(&rt)?.skip(1);
    let Some(path) = words.next() else {
        println!(rt; "usage: lef_count FILE")?;
        return Ok(());
    };
    let text = fs::read(&rt, path.as_str())?;
    match read_lef(rt.alloc(), &text, &Limits::standard()) {
        Ok(lef) => {
            let macros = lef.macros.len();
            let pins = pins_of(&lef);
            println!(rt; "{macros} macros, {pins} pins")?;
        }
        Err(refusal) => println!(rt; "refused: {refusal:?}")?,
    }
    Ok(())
}
