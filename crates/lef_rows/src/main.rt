//! Reads each text of some files as a LEF file and prints what the reader answers: `lef_rows FILE..`. Texts are parted by
//! `%`. Of the first text of each file all beginnings are read too: those that are refused where they end are counted, and
//! the others shown.
#![tactic(auto)]

use anyhow::Result;
use lef_reader::{Lef, Macro, MacroPart, MacroPin, read_lef};
use std::alloc::{Alloc, Global};
use std::fmt::Write;
use std::io::Print;
use std::{env, fs};
use text_scan::{FileRefusal, Limits, Text};

/// The text; a byte outside 32 to 126 is shown by its number.
fn shown(alloc: Global, text: &Text) -> Result<String> {
    let mut shown = String::new(alloc);
    for byte in text.as_bytes() {
        match *byte {
            32..=126 => shown.push(char::from(*byte))?,
            other => write!(shown, "<{other}>")?,
        }
    }
    Ok(shown)
}

fn show_pin<R: Print + Alloc<A = Global>>(rt: &R, pin: &MacroPin) -> Result<()> {
    let name = shown(rt.alloc(), &pin.name)?;
    let (direction, kind) = (pin.direction, pin.kind);
    print!(rt; "  {name} {direction:?} {kind:?}")?;
    for port in pin.ports.as_slice() {
        print!(rt; " [{}]", shown(rt.alloc(), port)?)?;
    }
    println!(rt; "")?;
    Ok(())
}

fn show_macro<R: Print + Alloc<A = Global>>(rt: &R, found: &Macro) -> Result<()> {
    let name = shown(rt.alloc(), &found.name)?;
    match &found.size {
        Some(size) => println!(rt; " {name} size [{}]", shown(rt.alloc(), size)?)?,
        None => println!(rt; " {name}")?,
    }
    for pin in found.pins.as_slice() {
        show_pin(rt, pin)?;
    }
    Ok(())
}

fn show_part<R: Print + Alloc<A = Global>>(rt: &R, part: &MacroPart) -> Result<()> {
    match part {
        MacroPart::Whole(found) => show_macro(rt, found),
        MacroPart::Refused {
            name,
            construct,
            line,
        } => {
            let name = shown(rt.alloc(), name)?;
            let word = shown(rt.alloc(), construct)?;
            println!(rt; " {name} refused: {word} at line {line}")?;
            Ok(())
        }
    }
}

fn show_lef<R: Print + Alloc<A = Global>>(rt: &R, lef: &Lef) -> Result<()> {
    println!(rt; "lef")?;
    for part in lef.macros.as_slice() {
        show_part(rt, part)?;
    }
    Ok(())
}

fn show_refusal<R: Print + Alloc<A = Global>>(rt: &R, refusal: &FileRefusal) -> Result<()> {
    match refusal {
        FileRefusal::NoMemory => println!(rt; "no memory")?,
        FileRefusal::Syntax { line, column } => {
            println!(rt; "syntax at line {line} column {column}")?;
        }
        FileRefusal::TooMany { kind, number } => println!(rt; "too many {kind}, {number}")?,
        FileRefusal::DoubleName { name, line } => {
            let name = shown(rt.alloc(), name)?;
            println!(rt; "{name} again at line {line}")?;
        }
    }
    Ok(())
}

fn show<R: Print + Alloc<A = Global>>(rt: &R, text: &[u8]) -> Result<()> {
    match read_lef(rt.alloc(), text, &Limits::standard()) {
        Ok(lef) => show_lef(rt, &lef),
        Err(refusal) => show_refusal(rt, &refusal),
    }
}

type Spot = (u32, u32);

/// What is answered to a beginning.
#[derive(Clone, Copy, Drop)]
enum Answer {
    /// With how many macros, and how many of them are refused.
    Accepted(usize, usize),
    Syntax(Spot),
    Other,
}

fn refused_of(lef: &Lef) -> usize {
    let mut refused = 0usize;
    for part in lef.macros.as_slice() {
        if matches!(part, MacroPart::Refused { .. }) {
            refused = refused.saturating_add(1);
        }
    }
    refused
}

fn answer_to(alloc: Global, text: &[u8]) -> Answer {
    match read_lef(alloc, text, &Limits::standard()) {
        Ok(lef) => Answer::Accepted(lef.macros.len(), refused_of(&lef)),
        Err(FileRefusal::Syntax { line, column }) => Answer::Syntax((line, column)),
        Err(_) => Answer::Other,
    }
}

/// The line and the column after a text that has the byte, where this is the one before.
fn after(spot: Spot, byte: u8) -> Spot {
    match byte {
        b'\n' => (spot.0.saturating_add(1), 1),
        _ => (spot.0, spot.1.saturating_add(1)),
    }
}

fn show_beginnings<R: Print + Alloc<A = Global>>(rt: &R, text: &[u8]) -> Result<()> {
    let mut end = (1, 1);
    let mut at_ends = 0u64;
    for length in 0..text.len() {
        match answer_to(rt.alloc(), &text[..length]) {
            Answer::Syntax(spot) if spot == end => at_ends = at_ends.saturating_add(1),
            Answer::Accepted(macros, refused) => {
                println!(rt; "{length} bytes: {macros} macros, {refused} refused")?;
            }
            Answer::Syntax((line, column)) => {
                println!(rt; "{length} bytes: syntax at line {line} column {column}")?;
            }
            Answer::Other => println!(rt; "{length} bytes: another answer")?,
        }
        end = after(end, text[length]);
    }
    println!(rt; "{at_ends} beginnings: syntax at their ends")?;
    Ok(())
}

fn show_file<R: Print + Alloc<A = Global>>(rt: &R, texts: &[u8]) -> Result<()> {
    let mut first = true;
    for text in texts.split(|byte| *byte == b'%') {
        show(rt, text)?;
        if first {
            show_beginnings(rt, text)?;
        }
        first = false;
    }
    Ok(())
}

fn main(rt: HostRuntime) -> Result<()> {
    for path in env::args(&rt)?.skip(1) {
        show_file(&rt, &fs::read(&rt, path.as_str())?)?;
    }
    Ok(())
}
