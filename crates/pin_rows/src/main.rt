//! Makes the pin tables of a Liberty file's cells, a Verilog file's modules, a CDL file's subcircuits and a LEF file's
//! macros, and prints them and what is found in them: `pin_rows LIBERTY VERILOG CDL LEF CASES`.
//!
//! A line of the cases has five words: the technology's supplies, and the views Liberty, Verilog, CDL and LEF. A view is a
//! table (`table`), or `-` where it is absent. `@NAME` is the table of what has this name in the view's file.
#![tactic(auto)]

mod sources;
mod table;

use anyhow::Result;
use pin_tables::{
    FourViews, PinTable, liberty_pins, macro_pins, module_pins, pin_findings, subcircuit_pins,
};
use sources::{Sources, Texts};
use std::alloc::{Alloc, AllocError, Global};
use std::io::Print;
use std::{env, fs};
use table::{said_of, supplies_of, table_of};
use text_scan::NoMemory;
use verdict_text::{View, write_finding};

/// Liberty's table; none where the library lacks the cell.
fn liberty_of(
    alloc: Global,
    sources: &Sources,
    supplies: &str,
    word: &str,
) -> Result<Option<PinTable>, NoMemory> {
    let Some(name) = word.strip_prefix("@") else {
        return Ok(Some(table_of(alloc, word)?));
    };
    match sources.cell(name) {
        Some(cell) => {
            let supplies = supplies_of(alloc, supplies)?;
            Ok(Some(liberty_pins(alloc, cell, &supplies)?))
        }
        None => Ok(None),
    }
}

/// The table of what has this name in the view's file; none where the file lacks it.
fn named(
    alloc: Global,
    sources: &Sources,
    view: View,
    liberty: &PinTable,
    name: &str,
) -> Result<Option<PinTable>, NoMemory> {
    match view {
        View::Verilog => match sources.module_of(name) {
            Some(module) => Ok(Some(module_pins(alloc, module, liberty)?)),
            None => Ok(None),
        },
        View::Cdl => match sources.subcircuit(name) {
            Some(subcircuit) => Ok(Some(subcircuit_pins(alloc, subcircuit, liberty)?)),
            None => Ok(None),
        },
        View::Lef => match sources.macro_of(name) {
            Some(found) => Ok(Some(macro_pins(alloc, found)?)),
            None => Ok(None),
        },
        View::Liberty => Ok(None),
    }
}

/// Another view's table; none where it is absent, or its file lacks the name.
fn view_of(
    alloc: Global,
    sources: &Sources,
    view: View,
    liberty: &PinTable,
    word: &str,
) -> Result<Option<PinTable>, NoMemory> {
    if word == "-" {
        return Ok(None);
    }
    match word.strip_prefix("@") {
        Some(name) => named(alloc, sources, view, liberty, name),
        None => Ok(Some(table_of(alloc, word)?)),
    }
}

/// The four views of a line, where the library has the cell.
fn views_of(alloc: Global, sources: &Sources, line: &str) -> Result<Option<FourViews>, NoMemory> {
    let mut words = line.split_whitespace();
    let supplies = words.next().unwrap_or(".");
    let Some(liberty) = liberty_of(alloc, sources, supplies, words.next().unwrap_or("."))? else {
        return Ok(None);
    };
    let verilog = words.next().unwrap_or("-");
    let verilog = view_of(alloc, sources, View::Verilog, &liberty, verilog)?;
    let cdl = view_of(
        alloc,
        sources,
        View::Cdl,
        &liberty,
        words.next().unwrap_or("-"),
    )?;
    let lef = view_of(
        alloc,
        sources,
        View::Lef,
        &liberty,
        words.next().unwrap_or("-"),
    )?;
    Ok(Some(FourViews {
        liberty,
        verilog,
        cdl,
        lef,
    }))
}

fn show_table<R: Print>(rt: &R, view: &str, table: &PinTable) -> Result<()> {
    print!(rt; "{view} {}", table.cell)?;
    for pin in table.pins.as_slice() {
        let (letter, sign) = said_of(pin);
        print!(rt; " {}:{letter}{sign}", pin.name)?;
    }
    println!(rt; "")?;
    Ok(())
}

fn show_view<R: Print>(rt: &R, view: &str, table: &Option<PinTable>) -> Result<()> {
    match table {
        Some(table) => show_table(rt, view, table),
        None => {
            println!(rt; "{view} absent")?;
            Ok(())
        }
    }
}

fn show_findings<R: Print + Alloc<A = Global>>(rt: &R, views: &FourViews) -> Result<()> {
    let alloc = rt.alloc();
    let mut text = Vec::new(alloc);
    for finding in &pin_findings(alloc, views).map_err(|_| AllocError)? {
        write_finding(alloc, finding, &mut text).map_err(|_| AllocError)?;
    }
    print!(rt; "{}", String::from_utf8(text)?)?;
    Ok(())
}

fn show_case<R: Print + Alloc<A = Global>>(rt: &R, sources: &Sources, line: &str) -> Result<()> {
    match views_of(rt.alloc(), sources, line).map_err(|_| AllocError)? {
        Some(views) => {
            show_table(rt, "liberty", &views.liberty)?;
            show_view(rt, "verilog", &views.verilog)?;
            show_view(rt, "cdl", &views.cdl)?;
            show_view(rt, "lef", &views.lef)?;
            show_findings(rt, &views)
        }
        None => {
            println!(rt; "no such cell")?;
            Ok(())
        }
    }
}

fn show_cases<R: Print + Alloc<A = Global>>(rt: &R, texts: Texts<'_>, cases: &str) -> Result<()> {
    match Sources::read(rt.alloc(), texts) {
        Ok(sources) => {
            for line in cases.lines() {
                show_case(rt, &sources, line)?;
            }
        }
        Err(refusal) => println!(rt; "refused: {refusal:?}")?,
    }
    Ok(())
}

fn main(rt: HostRuntime) -> Result<()> {
    let mut files = Vec::new(rt.alloc());
    for path in env::args(&rt)?.skip(1) {
        files.push(fs::read(&rt, path.as_str())?)?;
    }
    if let [liberty, verilog, cdl, lef, cases] = files.as_slice() {
        let texts = Texts {
            liberty,
            verilog,
            cdl,
            lef,
        };
        let cases = String::from_utf8(cases.to_vec(rt.alloc())?)?;
        return show_cases(&rt, texts, &cases);
    }
    println!(rt; "usage: pin_rows LIBERTY VERILOG CDL LEF CASES")?;
    Ok(())
}
