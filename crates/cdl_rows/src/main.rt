//! Reads each text of some files as a CDL netlist and prints what the reader answers: `cdl_rows FILE..`. Texts are
//! parted by `%`. Of the first text of each file all beginnings are read too: those that are accepted and those that are
//! refused where they end are counted, and the others shown.
#![tactic(auto)]

use anyhow::Result;
use cdl_reader::{Netlist, Subcircuit, SubcircuitPart, Transistor, read_netlist};
use std::alloc::{Alloc, Global};
use std::io::Print;
use std::{env, fs};
use text_scan::{FileRefusal, Limits, Text};

fn shown(alloc: Global, text: &Text) -> Result<String> {
    Ok(String::from_utf8(text.as_bytes().to_vec(alloc)?)?)
}

fn show_transistor<R: Print + Alloc<A = Global>>(rt: &R, transistor: &Transistor) -> Result<()> {
    let alloc = rt.alloc();
    let name = shown(alloc, &transistor.name)?;
    let drain = shown(alloc, &transistor.drain)?;
    let gate = shown(alloc, &transistor.gate)?;
    let source = shown(alloc, &transistor.source)?;
    let model = shown(alloc, &transistor.model)?;
    println!(rt; "  {name} drain {drain} gate {gate} source {source} model {model}")?;
    Ok(())
}

fn show_subcircuit<R: Print + Alloc<A = Global>>(rt: &R, subcircuit: &Subcircuit) -> Result<()> {
    print!(rt; " {}", shown(rt.alloc(), &subcircuit.name)?)?;
    for (pin, direction) in subcircuit.pins.as_slice() {
        print!(rt; " {}={direction:?}", shown(rt.alloc(), pin)?)?;
    }
    println!(rt; "")?;
    for transistor in subcircuit.transistors.as_slice() {
        show_transistor(rt, transistor)?;
    }
    Ok(())
}

fn show_part<R: Print + Alloc<A = Global>>(rt: &R, part: &SubcircuitPart) -> Result<()> {
    match part {
        SubcircuitPart::Whole(subcircuit) => show_subcircuit(rt, subcircuit),
        SubcircuitPart::Refused { name, card, line } => {
            let name = shown(rt.alloc(), name)?;
            let card = shown(rt.alloc(), card)?;
            println!(rt; " {name} refused: {card} at line {line}")?;
            Ok(())
        }
    }
}

fn show_netlist<R: Print + Alloc<A = Global>>(rt: &R, netlist: &Netlist) -> Result<()> {
    println!(rt; "netlist")?;
    for part in netlist.parts.as_slice() {
        show_part(rt, part)?;
    }
    Ok(())
}

fn show_refusal<R: Print + Alloc<A = Global>>(rt: &R, refusal: &FileRefusal) -> Result<()> {
    match refusal {
        FileRefusal::NoMemory => println!(rt; "no memory")?,
        FileRefusal::Syntax { line, column } => {
            println!(rt; "syntax at line {line} column {column}")?;
        }
        FileRefusal::TooMany { kind, number } => println!(rt; "too many {kind}, {number}")?,
        FileRefusal::DoubleName { name, line } => {
            let name = shown(rt.alloc(), name)?;
            println!(rt; "{name} again at line {line}")?;
        }
    }
    Ok(())
}

fn show<R: Print + Alloc<A = Global>>(rt: &R, text: &[u8]) -> Result<()> {
    match read_netlist(rt.alloc(), text, &Limits::standard()) {
        Ok(netlist) => show_netlist(rt, &netlist),
        Err(refusal) => show_refusal(rt, &refusal),
    }
}

type Spot = (u32, u32);

/// What is answered to a beginning.
#[derive(Clone, Copy, Drop)]
enum Answer {
    Accepted,
    Syntax(Spot),
    Other,
}

fn answer_to(alloc: Global, text: &[u8]) -> Answer {
    match read_netlist(alloc, text, &Limits::standard()) {
        Ok(_) => Answer::Accepted,
        Err(FileRefusal::Syntax { line, column }) => Answer::Syntax((line, column)),
        Err(_) => Answer::Other,
    }
}

/// The line and the column after a text that has the byte, where this is the one before.
fn after(spot: Spot, byte: u8) -> Spot {
    match byte {
        b'\n' => (spot.0.saturating_add(1), 1),
        _ => (spot.0, spot.1.saturating_add(1)),
    }
}

fn show_beginnings<R: Print + Alloc<A = Global>>(rt: &R, text: &[u8]) -> Result<()> {
    let mut end = (1, 1);
    let mut accepted = 0u64;
    let mut at_ends = 0u64;
    for length in 0..text.len() {
        match answer_to(rt.alloc(), &text[..length]) {
            Answer::Accepted => accepted = accepted.saturating_add(1),
            Answer::Syntax(spot) if spot == end => at_ends = at_ends.saturating_add(1),
            Answer::Syntax((line, column)) => {
                println!(rt; "{length} bytes: syntax at line {line} column {column}")?;
            }
            Answer::Other => println!(rt; "{length} bytes: another answer")?,
        }
        end = after(end, text[length]);
    }
    println!(rt; "{accepted} beginnings: accepted")?;
    println!(rt; "{at_ends} beginnings: syntax at their ends")?;
    Ok(())
}

fn show_file<R: Print + Alloc<A = Global>>(rt: &R, texts: &str) -> Result<()> {
    let mut first = true;
    for text in texts.split('%') {
        show(rt, text.as_bytes())?;
        if first {
            show_beginnings(rt, text.as_bytes())?;
        }
        first = false;
    }
    Ok(())
}

fn main(rt: HostRuntime) -> Result<()> {
    for path in env::args(&rt)?.skip(1) {
        let bytes = fs::read(&rt, path.as_str())?;
        show_file(&rt, &String::from_utf8(bytes)?)?;
    }
    Ok(())
}
