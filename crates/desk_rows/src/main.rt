//! Runs the top call over cases in memory, and prints what each answers and writes: `desk_rows FILE..`. A case is a
//! title, a Liberty text and a Verilog text, each ended by `%`. Behind the files come cases that are too long to be
//! written down.
#![tactic(auto)]

use anyhow::Result;
use desk_ports::{MemShelf, MemSink};
use qual_core::qual;
use std::alloc::{Alloc, AllocError, Global};
use std::io::Print;
use std::{env, fs};

/// What a run over two files answered and wrote.
#[derive(Drop)]
struct Answer {
    status: u8,
    text: String,
}

fn compare(alloc: Global, liberty: Vec<u8>, verilog: &[u8]) -> Result<Answer> {
    let words = vec![in alloc;
        "compare".to_string(alloc)?,
        "--verilog".to_string(alloc)?,
        "v".to_string(alloc)?,
        "--liberty".to_string(alloc)?,
        "l".to_string(alloc)?,
    ]?;
    let files = vec![in alloc;
        ("l".to_string(alloc)?, liberty),
        ("v".to_string(alloc)?, verilog.to_vec(alloc)?),
    ]?;
    let mut shelf = MemShelf::new(files, Vec::new(alloc));
    let mut out = MemSink::new(alloc, 1_000_000, Vec::new(alloc)).map_err(|_| AllocError)?;
    let status = qual(alloc, &words, &mut shelf, &mut out).number();
    let text = String::from_utf8(out.written().to_vec(alloc)?)?;
    Ok(Answer { status, text })
}

fn show<R: Print + Alloc<A = Global>>(
    rt: &R,
    title: &str,
    liberty: &str,
    verilog: &str,
) -> Result<()> {
    let alloc = rt.alloc();
    let answer = compare(alloc, liberty.as_bytes().to_vec(alloc)?, verilog.as_bytes())?;
    print!(rt; "{title}: status {}\n{}", answer.status, answer.text)?;
    Ok(())
}

fn show_file<R: Print + Alloc<A = Global>>(rt: &R, cases: &str) -> Result<()> {
    let mut parts = cases.split('%');
    while let (Some(title), Some(liberty), Some(verilog)) = (
        parts.next(),
        parts.next(),
        parts.next(),
    ) {
        show(rt, title.trim(), liberty, verilog)?;
    }
    Ok(())
}

// ---- names, inputs, gates and pins at their limits

fn repeated(alloc: Global, piece: &str, times: usize) -> Result<String, AllocError> {
    let mut text = String::new(alloc);
    for _ in 0..times {
        text.push_str(piece)?;
    }
    Ok(text)
}

/// An inverter whose cell has a name of this many bytes.
fn show_name<R: Print + Alloc<A = Global>>(rt: &R, bytes: usize) -> Result<()> {
    let alloc = rt.alloc();
    let name = repeated(alloc, "N", bytes)?;
    let liberty = format!(in alloc;
        "library(t){{cell({name}){{pin(A){{direction:input;}}pin(Y){{direction:output;function:\"!A\";}}}}}}"
    )?;
    let verilog = format!(in alloc; "module {name}(A,Y);input A;output Y;not(Y,A);endmodule")?;
    let title = format!(in alloc; "a name of {bytes} bytes")?;
    show(rt, &title, &liberty, &verilog)
}

/// A name and a number, this many times, with commas between.
fn numbered(alloc: Global, name: &str, count: usize) -> Result<String> {
    let mut text = String::new(alloc);
    for k in 0..count {
        text.push_str(format!(in alloc; "{}{name}{k}", if k == 0 { "" } else { "," })?.as_str())?;
    }
    Ok(text)
}

/// A cell of this many inputs that gives the first of them.
fn show_inputs<R: Print + Alloc<A = Global>>(rt: &R, inputs: usize) -> Result<()> {
    let alloc = rt.alloc();
    let names = numbered(alloc, "A", inputs)?;
    let liberty = format!(in alloc;
        "library(t){{cell(C){{pin({names}){{direction:input;}}pin(Y){{direction:output;function:\"A0\";}}}}}}"
    )?;
    let verilog = format!(in alloc;
        "module C({names},Y);input {names};output Y;buf(Y,A0);endmodule"
    )?;
    let title = format!(in alloc; "{inputs} inputs")?;
    show(rt, &title, &liberty, &verilog)
}

/// A chain of this many buffers behind an input.
fn show_gates<R: Print + Alloc<A = Global>>(rt: &R, gates: usize) -> Result<()> {
    let alloc = rt.alloc();
    let mut verilog = "module C(A,Y);input A;output Y;buf(n0,A);".to_string(alloc)?;
    for k in 2..gates {
        let last = k - 2;
        let next = k - 1;
        verilog.push_str(format!(in alloc; "buf(n{next},n{last});")?.as_str())?;
    }
    let last = gates.saturating_sub(2);
    verilog.push_str(format!(in alloc; "buf(Y,n{last});endmodule")?.as_str())?;
    let title = format!(in alloc; "{gates} gates")?;
    show(
        rt,
        &title,
        "library(t){cell(C){pin(A){direction:input;}pin(Y){direction:output;function:\"A\";}}}",
        &verilog,
    )
}

/// A cell of this many outputs, each 1.
fn show_pins<R: Print + Alloc<A = Global>>(rt: &R, pins: usize) -> Result<()> {
    let alloc = rt.alloc();
    let names = numbered(alloc, "Y", pins)?;
    let liberty = format!(in alloc;
        "library(t){{cell(C){{pin({names}){{direction:output;function:\"1\";}}}}}}"
    )?;
    let verilog = format!(in alloc; "module C({names});output {names};supply1 {names};endmodule")?;
    let title = format!(in alloc; "{pins} pins")?;
    show(rt, &title, &liberty, &verilog)
}

// ---- cells and bytes at their limits

/// The line of totals, or the whole text where it is one line.
fn totals_of(text: &str) -> &str {
    text.split('\n')
        .find(|line| line.starts_with("total "))
        .unwrap_or(text.trim_end())
}

/// A library of this many inverters.
fn show_cells<R: Print + Alloc<A = Global>>(rt: &R, cells: usize) -> Result<()> {
    let alloc = rt.alloc();
    let mut liberty = "library(t){".to_string(alloc)?;
    let mut verilog = String::new(alloc);
    for k in 0..cells {
        liberty.push_str(format!(in alloc;
            "cell(C{k}){{pin(A){{direction:input;}}pin(Y){{direction:output;function:\"!A\";}}}}"
        )?.as_str())?;
        verilog.push_str(format!(in alloc;
            "module C{k}(A,Y);input A;output Y;not(Y,A);endmodule "
        )?.as_str())?;
    }
    liberty.push_str("}")?;
    let answer = compare(alloc, liberty.as_bytes().to_vec(alloc)?, verilog.as_bytes())?;
    let totals = totals_of(&answer.text);
    println!(rt; "{cells} cells: status {}\n{totals}", answer.status)?;
    Ok(())
}

/// A Liberty file of one byte too many.
fn show_bytes<R: Print + Alloc<A = Global>>(rt: &R) -> Result<()> {
    let alloc = rt.alloc();
    let bytes = 134_217_729;
    let mut liberty = Vec::new(alloc);
    liberty.resize(bytes, b' ')?;
    let answer = compare(alloc, liberty, b"")?;
    print!(rt;
        "a file of {bytes} bytes: status {}\n{}",
        answer.status, answer.text
    )?;
    Ok(())
}

fn main(rt: HostRuntime) -> Result<()> {
    for path in env::args(&rt)?.skip(1) {
        let bytes = fs::read(&rt, path.as_str())?;
        show_file(&rt, &String::from_utf8(bytes)?)?;
    }
    show_name(&rt, 128)?;
    show_name(&rt, 129)?;
    show_inputs(&rt, 12)?;
    show_inputs(&rt, 13)?;
    show_gates(&rt, 512)?;
    show_gates(&rt, 513)?;
    show_pins(&rt, 64)?;
    show_pins(&rt, 65)?;
    show_cells(&rt, 4096)?;
    show_cells(&rt, 4097)?;
    show_bytes(&rt)
}
