//! Reads a Verilog file and counts what it has: `source_count FILE`.
#![tactic(auto)]

use std::{env, fs};
use text_scan::Limits;
use verilog_reader::{ModulePart, Source, UdpPart, read_source};

/// How many elements the modules have that are read.
fn elements_of(source: &Source) -> u64 {
    let mut elements = 0u64;
    for part in source.modules.as_slice() {
        if let ModulePart::Whole(module) = part {
            elements = elements.saturating_add(module.elements.len() as u64);
        }
    }
    elements
}

/// How many rows the primitives have that are read.
fn rows_of(source: &Source) -> u64 {
    let mut rows = 0u64;
    for part in source.primitives.as_slice() {
        if let UdpPart::Whole(udp) = part {
            rows = rows.saturating_add(udp.rows.len() as u64);
        }
    }
    rows
}

fn main(rt: HostRuntime) -> Result<(), anyhow::Error> {
    let mut words = env::args(&rt)?.skip(1);
    let Some(path) = words.next() else {
        println!(rt; "usage: source_count FILE")?;
        return Ok(());
    };
    let text = fs::read(&rt, path.as_str())?;
    match read_source(rt.alloc(), &text, &Limits::standard()) {
        Ok(source) => {
            let modules = source.modules.len();
            let elements = elements_of(&source);
            let primitives = source.primitives.len();
            let rows = rows_of(&source);
            println!(rt;
                "{modules} modules, {elements} elements, {primitives} primitives, {rows} rows"
            )?;
        }
        Err(refusal) => println!(rt; "refused: {refusal:?}")?,
    }
    Ok(())
}
