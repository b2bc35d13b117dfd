//! Makes networks of a Verilog file's modules, settles and moves them, and prints the values of nets:
//! `net_rows FILE [CASE]..`, where a case is `MODULE:INPUTS:SUPPLIES:STATES:STEPS:NETS`.
//!
//! Inputs, steps and nets are lists with commas; a supply is `NAME=VALUE`. A step has 0, 1 or X for each input, and the
//! states that the first step settles with stand in the order of the text. Each later step moves the pins.
#![tactic(auto)]

mod case;
mod source;
mod walk;

use anyhow::Result;
use case::Case;
use module_net::{GateRefusal, ModuleNet, Primitives, build, drive_nets};
use source::{module_of, primitives_of};
use std::alloc::{Alloc, AllocError, Global};
use std::io::Print;
use std::{env, fs};
use text_scan::Limits;
use verilog_reader::{Module, Source, read_source};

fn show_refusal<R: Print>(rt: &R, refusal: &GateRefusal) -> Result<()> {
    match refusal {
        GateRefusal::NoMemory => println!(rt; "no memory")?,
        GateRefusal::Loop(net) => println!(rt; "refused: loop {net}")?,
        GateRefusal::TwoDrivers(net) => println!(rt; "refused: two drivers {net}")?,
        GateRefusal::UnknownUdp(name) => println!(rt; "refused: unknown primitive {name}")?,
        GateRefusal::PortCount(label) => println!(rt; "refused: port count {label}")?,
    }
    Ok(())
}

/// The network, unless a constant stands in an output's place.
fn network(
    alloc: Global,
    case: &Case,
    module: &Module,
    primitives: &Primitives,
) -> Option<Result<ModuleNet, GateRefusal>> {
    if !drive_nets(module.elements.as_slice()) {
        return None;
    }
    let (inputs, supplies) = (case.inputs.as_slice(), case.supplies.as_slice());
    Some(build(alloc, module, primitives, inputs, supplies))
}

fn show_module<R: Print + Alloc<A = Global>>(
    rt: &R,
    case: &Case,
    module: &Module,
    primitives: &Primitives,
) -> Result<()> {
    match network(rt.alloc(), case, module, primitives) {
        Some(Ok(net)) => walk::show(rt, case, &net),
        Some(Err(refusal)) => show_refusal(rt, &refusal),
        None => {
            println!(rt; "a constant is driven")?;
            Ok(())
        }
    }
}

fn show_case<R: Print + Alloc<A = Global>>(
    rt: &R,
    source: &Source,
    primitives: &Primitives,
    word: &str,
) -> Result<()> {
    let case = Case::of(rt.alloc(), word).map_err(|_| AllocError)?;
    println!(rt; "{}", case.module)?;
    match module_of(source, case.module.as_bytes()) {
        Some(module) => show_module(rt, &case, module, primitives),
        None => {
            println!(rt; "no such module")?;
            Ok(())
        }
    }
}

fn main(rt: HostRuntime) -> Result<()> {
    let alloc = rt.alloc();
    let mut words = env::args(&rt)?.skip(1);
    let Some(path) = words.next() else {
        println!(rt; "usage: net_rows FILE [MODULE:INPUTS:SUPPLIES:STATES:STEPS:NETS]..")?;
        return Ok(());
    };
    let text = fs::read(&rt, path.as_str())?;
    let source = match read_source(alloc, &text, &Limits::standard()) {
        Ok(source) => source,
        Err(refusal) => {
            println!(rt; "refused: {refusal:?}")?;
            return Ok(());
        }
    };
    let primitives = primitives_of(alloc, &source).map_err(|_| AllocError)?;
    for word in words {
        show_case(&rt, &source, &primitives, word.as_str())?;
    }
    Ok(())
}
