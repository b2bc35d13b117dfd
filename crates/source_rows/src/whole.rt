//! Shows what is kept of a whole text.
use anyhow::Result;
use std::alloc::{Alloc, Global};
use std::io::Print;
use tern_core::Tern;
use text_scan::{FileRefusal, Limits, Text};
use verilog_reader::{
    Element, Module, ModulePart, Source, Terminal, UdpPart, UdpText, read_source,
};

fn shown(alloc: Global, text: &Text) -> Result<String> {
    Ok(String::from_utf8(text.as_bytes().to_vec(alloc)?)?)
}

fn digit(value: Tern) -> char {
    match value {
        Tern::Zero => '0',
        Tern::One => '1',
        Tern::Unknown => 'x',
    }
}

fn show_element<R: Print + Alloc<A = Global>>(rt: &R, element: &Element) -> Result<()> {
    let alloc = rt.alloc();
    let sort = if element.is_gate { "gate" } else { "primitive" };
    print!(rt;
        "  {sort} {} {}:",
        shown(alloc, &element.kind)?,
        shown(alloc, &element.label)?
    )?;
    for terminal in element.terminals.as_slice() {
        match terminal {
            Terminal::Net(name) => print!(rt; " {}", shown(alloc, name)?)?,
            Terminal::Constant(value) => print!(rt; " 1'b{}", digit(*value))?,
        }
    }
    println!(rt; "")?;
    Ok(())
}

fn show_module<R: Print + Alloc<A = Global>>(rt: &R, module: &Module) -> Result<()> {
    let alloc = rt.alloc();
    print!(rt; " module {}", shown(alloc, &module.name)?)?;
    for port in module.ports.as_slice() {
        print!(rt; " {}={:?}", shown(alloc, &port.name)?, port.direction)?;
    }
    println!(rt; "")?;
    for (net, value) in module.supplies.as_slice() {
        println!(rt; "  supply {} {}", shown(alloc, net)?, digit(*value))?;
    }
    for element in module.elements.as_slice() {
        show_element(rt, element)?;
    }
    Ok(())
}

fn show_primitive<R: Print + Alloc<A = Global>>(rt: &R, udp: &UdpText) -> Result<()> {
    let alloc = rt.alloc();
    let sort = if udp.sequential {
        "sequential"
    } else {
        "combinational"
    };
    println!(rt;
        " primitive {} {sort}, {} inputs",
        shown(alloc, &udp.name)?,
        udp.inputs
    )?;
    for row in udp.rows.as_slice() {
        println!(rt; "  row {}", shown(alloc, row)?)?;
    }
    Ok(())
}

fn show_refused<R: Print + Alloc<A = Global>>(
    rt: &R,
    sort: &str,
    name: &Text,
    construct: &Text,
    line: u32,
) -> Result<()> {
    let name = shown(rt.alloc(), name)?;
    let construct = shown(rt.alloc(), construct)?;
    println!(rt; " {sort} {name} refused: {construct} at line {line}")?;
    Ok(())
}

fn show_source<R: Print + Alloc<A = Global>>(rt: &R, source: &Source) -> Result<()> {
    println!(rt; "source")?;
    for part in source.modules.as_slice() {
        match part {
            ModulePart::Whole(module) => show_module(rt, module)?,
            ModulePart::Refused {
                name,
                construct,
                line,
            } => {
                show_refused(rt, "module", name, construct, *line)?;
            }
        }
    }
    for part in source.primitives.as_slice() {
        match part {
            UdpPart::Whole(udp) => show_primitive(rt, udp)?,
            UdpPart::Refused {
                name,
                construct,
                line,
            } => {
                show_refused(rt, "primitive", name, construct, *line)?;
            }
        }
    }
    Ok(())
}

fn show_refusal<R: Print + Alloc<A = Global>>(rt: &R, refusal: &FileRefusal) -> Result<()> {
    match refusal {
        FileRefusal::NoMemory => println!(rt; "no memory")?,
        FileRefusal::Syntax { line, column } => {
            println!(rt; "syntax at line {line} column {column}")?;
        }
        FileRefusal::TooMany { kind, number } => println!(rt; "too many {kind}, {number}")?,
        FileRefusal::DoubleName { name, line } => {
            let name = shown(rt.alloc(), name)?;
            println!(rt; "{name} again at line {line}")?;
        }
    }
    Ok(())
}

pub fn show_whole<R: Print + Alloc<A = Global>>(rt: &R, text: &[u8]) -> Result<()> {
    match read_source(rt.alloc(), text, &Limits::standard()) {
        Ok(source) => show_source(rt, &source),
        Err(refusal) => show_refusal(rt, &refusal),
    }
}
