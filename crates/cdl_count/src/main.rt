//! Reads a CDL netlist and counts what it has: `cdl_count FILE`.
#![tactic(auto)]

use cdl_reader::{Netlist, SubcircuitPart, read_netlist};
use std::{env, fs};
use text_scan::Limits;

/// How many transistors the subcircuits have that are read.
fn transistors_of(netlist: &Netlist) -> u64 {
    let mut transistors = 0u64;
    for part in netlist.parts.as_slice() {
        if let SubcircuitPart::Whole(subcircuit) = part {
            transistors = transistors.saturating_add(subcircuit.transistors.len() as u64);
        }
    }
    transistors
}

fn main(rt: HostRuntime) -> Result<(), anyhow::Error> {
    let mut words = env::args(&rt)?.skip(1);
    let Some(path) = words.next() else {
        println!(rt; "usage: cdl_count FILE")?;
        return Ok(());
    };
    let text = fs::read(&rt, path.as_str())?;
    match read_netlist(rt.alloc(), &text, &Limits::standard()) {
        Ok(netlist) => {
            let subcircuits = netlist.parts.len();
            let transistors = transistors_of(&netlist);
            println!(rt; "{subcircuits} subcircuits, {transistors} transistors")?;
        }
        Err(refusal) => println!(rt; "refused: {refusal:?}")?,
    }
    Ok(())
}
