//! Reads each text of some files as a Liberty library and prints what the reader answers: `library_rows FILE..`. Texts
//! are parted by `%`. Of the first text of each file all beginnings are read too: those that are refused where they end
//! are counted, and the others shown.
#![tactic(auto)]

use anyhow::Result;
use liberty_reader::{
    Both, CellPart, LibertyCell, LibertyPin, Library, RowsText, StateGroup, read_library,
};
use std::alloc::{Alloc, Global};
use std::fmt::Write;
use std::io::Print;
use std::{env, fs};
use text_scan::{FileRefusal, Limits, Text};

/// The text; a byte outside 32 to 126 is shown by its number.
fn shown(alloc: Global, text: &Text) -> Result<String> {
    let mut shown = String::new(alloc);
    for byte in text.as_bytes() {
        match *byte {
            32..=126 => shown.push(char::from(*byte))?,
            other => write!(shown, "<{other}>")?,
        }
    }
    Ok(shown)
}

fn show_texts<R: Print + Alloc<A = Global>>(rt: &R, texts: &[&Option<Text>]) -> Result<()> {
    for text in texts {
        match text {
            Some(text) => print!(rt; " [{}]", shown(rt.alloc(), text)?)?,
            None => print!(rt; " -")?,
        }
    }
    Ok(())
}

fn show_pin<R: Print + Alloc<A = Global>>(rt: &R, pin: &LibertyPin) -> Result<()> {
    let alloc = rt.alloc();
    let name = shown(alloc, &pin.name)?;
    let (direction, kind) = (pin.direction, pin.kind);
    print!(rt; "  {name} {direction:?} {kind:?}")?;
    show_texts(
        rt,
        &[&pin.function, &pin.state_function, &pin.internal_node],
    )?;
    println!(rt; "")?;
    Ok(())
}

fn show_names<R: Print + Alloc<A = Global>>(rt: &R, names: &[Text]) -> Result<()> {
    for name in names {
        print!(rt; " {}", shown(rt.alloc(), name)?)?;
    }
    Ok(())
}

fn show_storage<R: Print + Alloc<A = Global>>(
    rt: &R,
    line: u32,
    variables: &[Text],
    texts: &[&Option<Text>],
    both: &[Both],
) -> Result<()> {
    print!(rt; " at line {line}:")?;
    show_names(rt, variables)?;
    show_texts(rt, texts)?;
    println!(rt; " {both:?}")?;
    Ok(())
}

fn show_rows<R: Print + Alloc<A = Global>>(rt: &R, rows: &RowsText) -> Result<()> {
    print!(rt; "  statetable at line {}:", rows.line)?;
    show_names(rt, rows.inputs.as_slice())?;
    print!(rt; " :")?;
    show_names(rt, rows.nodes.as_slice())?;
    println!(rt; " [{}]", shown(rt.alloc(), &rows.table)?)?;
    Ok(())
}

fn show_state<R: Print + Alloc<A = Global>>(rt: &R, state: &StateGroup) -> Result<()> {
    match state {
        StateGroup::Stateless => Ok(()),
        StateGroup::Ff(ff) => {
            print!(rt; "  ff")?;
            let texts = [&ff.next_state, &ff.clocked_on, &ff.clear, &ff.preset];
            show_storage(rt, ff.line, &ff.variables, &texts, &ff.both)
        }
        StateGroup::Latch(latch) => {
            print!(rt; "  latch")?;
            let texts = [&latch.enable, &latch.data_in, &latch.clear, &latch.preset];
            show_storage(rt, latch.line, &latch.variables, &texts, &latch.both)
        }
        StateGroup::Rows(rows) => show_rows(rt, rows),
    }
}

fn show_cell<R: Print + Alloc<A = Global>>(rt: &R, cell: &LibertyCell) -> Result<()> {
    let name = shown(rt.alloc(), &cell.name)?;
    println!(rt; " {name} at line {}", cell.line)?;
    for pin in cell.pins.as_slice() {
        show_pin(rt, pin)?;
    }
    show_state(rt, &cell.state)
}

fn show_part<R: Print + Alloc<A = Global>>(rt: &R, part: &CellPart) -> Result<()> {
    match part {
        CellPart::Whole(cell) => show_cell(rt, cell),
        CellPart::Refused {
            name,
            construct,
            line,
        } => {
            let name = shown(rt.alloc(), name)?;
            let word = shown(rt.alloc(), construct)?;
            println!(rt; " {name} refused: {word} at line {line}")?;
            Ok(())
        }
    }
}

fn show_library<R: Print + Alloc<A = Global>>(rt: &R, library: &Library) -> Result<()> {
    let name = shown(rt.alloc(), &library.name)?;
    println!(rt; "library {name}")?;
    for part in library.cells.as_slice() {
        show_part(rt, part)?;
    }
    Ok(())
}

fn show_refusal<R: Print + Alloc<A = Global>>(rt: &R, refusal: &FileRefusal) -> Result<()> {
    match refusal {
        FileRefusal::NoMemory => println!(rt; "no memory")?,
        FileRefusal::Syntax { line, column } => {
            println!(rt; "syntax at line {line} column {column}")?;
        }
        FileRefusal::TooMany { kind, number } => println!(rt; "too many {kind}, {number}")?,
        FileRefusal::DoubleName { name, line } => {
            let name = shown(rt.alloc(), name)?;
            println!(rt; "{name} again at line {line}")?;
        }
    }
    Ok(())
}

fn show<R: Print + Alloc<A = Global>>(rt: &R, text: &[u8]) -> Result<()> {
    match read_library(rt.alloc(), text, &Limits::standard()) {
        Ok(library) => show_library(rt, &library),
        Err(refusal) => show_refusal(rt, &refusal),
    }
}

type Spot = (u32, u32);

/// The line and the column at which a text is refused.
fn refused_at(alloc: Global, text: &[u8]) -> Option<Spot> {
    match read_library(alloc, text, &Limits::standard()) {
        Err(FileRefusal::Syntax { line, column }) => Some((line, column)),
        _ => None,
    }
}

/// The line and the column after a text that has the byte, where this is the one before.
fn after(spot: Spot, byte: u8) -> Spot {
    match byte {
        b'\n' => (spot.0.saturating_add(1), 1),
        _ => (spot.0, spot.1.saturating_add(1)),
    }
}

fn show_beginnings<R: Print + Alloc<A = Global>>(rt: &R, text: &[u8]) -> Result<()> {
    let mut end = (1, 1);
    let mut at_ends = 0u64;
    for length in 0..text.len() {
        match refused_at(rt.alloc(), &text[..length]) {
            Some(spot) if spot == end => at_ends = at_ends.saturating_add(1),
            Some((line, column)) => {
                println!(rt; "{length} bytes: syntax at line {line} column {column}")?;
            }
            None => println!(rt; "{length} bytes: another answer")?,
        }
        end = after(end, text[length]);
    }
    println!(rt; "{at_ends} beginnings: syntax at their ends")?;
    Ok(())
}

fn show_file<R: Print + Alloc<A = Global>>(rt: &R, texts: &[u8]) -> Result<()> {
    let mut first = true;
    for text in texts.split(|byte| *byte == b'%') {
        show(rt, text)?;
        if first {
            show_beginnings(rt, text)?;
        }
        first = false;
    }
    Ok(())
}

fn main(rt: HostRuntime) -> Result<()> {
    for path in env::args(&rt)?.skip(1) {
        show_file(&rt, &fs::read(&rt, path.as_str())?)?;
    }
    Ok(())
}
