//! Reads texts of files as Verilog sources and prints what the reader answers: `source_rows FILE.. --whole FILE..`. Texts
//! are parted by `%`. Of a text of the first files all beginnings are read, the whole text last; beginnings with one
//! answer, one byte longer each, are one line. Of a text of the others what is kept of it is shown.
#![tactic(auto)]

mod whole;

use anyhow::Result;
use std::alloc::{Alloc, Global};
use std::io::Print;
use std::{env, fs};
use text_scan::{FileRefusal, Limits};
use verilog_reader::read_source;
use whole::show_whole;

/// A line and a column of a text.
type Spot = (u32, u32);

#[derive(Clone, Copy, PartialEq)]
enum Answer {
    /// So many modules and primitives.
    Read(usize, usize),
    /// A syntax error where the text ends.
    AtEnd,
    /// A syntax error before that.
    At(Spot),
    /// A syntax error behind the text's end.
    Beyond,
    Other,
}

fn is_before(spot: Spot, end: Spot) -> bool {
    spot.0 < end.0 || (spot.0 == end.0 && spot.1 < end.1)
}

/// What the reader answers to a text that ends here.
fn answer_to(alloc: Global, text: &[u8], end: Spot) -> Answer {
    match read_source(alloc, text, &Limits::standard()) {
        Ok(source) => Answer::Read(source.modules.len(), source.primitives.len()),
        Err(FileRefusal::Syntax { line, column }) => {
            let spot = (line, column);
            if spot == end {
                Answer::AtEnd
            } else if is_before(spot, end) {
                Answer::At(spot)
            } else {
                Answer::Beyond
            }
        }
        Err(_) => Answer::Other,
    }
}

/// Prints the answer to the beginnings of these lengths.
fn show<R: Print>(rt: &R, least: usize, most: usize, answer: Answer) -> Result<()> {
    print!(rt; "{least} to {most} bytes: ")?;
    match answer {
        Answer::Read(modules, primitives) => {
            println!(rt; "{modules} modules, {primitives} primitives")?;
        }
        Answer::AtEnd => println!(rt; "syntax at their ends")?,
        Answer::At((line, column)) => println!(rt; "syntax at line {line} column {column}")?,
        Answer::Beyond => println!(rt; "syntax behind their ends")?,
        Answer::Other => println!(rt; "another answer")?,
    }
    Ok(())
}

/// The line and the column after a text that has the byte, where this is the one before.
fn after(spot: Spot, byte: u8) -> Spot {
    match byte {
        b'\n' => (spot.0.saturating_add(1), 1),
        _ => (spot.0, spot.1.saturating_add(1)),
    }
}

fn show_text<R: Print + Alloc<A = Global>>(rt: &R, text: &[u8]) -> Result<()> {
    let mut end = (1, 1);
    let mut least = 0;
    let mut last = answer_to(rt.alloc(), &[], end);
    for i in 0..text.len() {
        end = after(end, text[i]);
        let answer = answer_to(rt.alloc(), &text[..i + 1], end);
        if answer != last {
            show(rt, least, i, last)?;
            least = i + 1;
            last = answer;
        }
    }
    show(rt, least, text.len(), last)
}

fn main(rt: HostRuntime) -> Result<()> {
    let mut is_whole = false;
    for word in env::args(&rt)?.skip(1) {
        if word.as_str() == "--whole" {
            is_whole = true;
            continue;
        }
        let texts = fs::read(&rt, word.as_str())?;
        for text in texts.split(|byte| *byte == b'%') {
            if is_whole {
                show_whole(&rt, text)?;
            } else {
                show_text(&rt, text)?;
            }
        }
    }
    Ok(())
}
