use super::*;
use std::alloc::Global;
use std::process::Abort;
use std::test::Fail;
use tern_core::Tern;
use text_scan::{Direction, Items, Text};
use verilog_source::{Element, Module, Port, Terminal, UdpText};

fn net(alloc: Global, name: &[u8]) -> Result<Terminal, Fail> {
    Ok(Terminal::Net(Text::from_bytes(alloc, name)?))
}

/// An instance with the output Y and the input A.
fn element(alloc: Global, kind: &[u8]) -> Result<Element, Fail> {
    let mut terminals = Items::new(alloc);
    terminals.push(net(alloc, b"Y")?)?;
    terminals.push(net(alloc, b"A")?)?;
    Ok(Element {
        kind: Text::from_bytes(alloc, kind)?,
        is_gate: gate_word(kind).is_some(),
        label: Text::from_bytes(alloc, b"g")?,
        terminals,
    })
}

fn port(alloc: Global, name: &[u8], direction: Direction) -> Result<Port, Fail> {
    Ok(Port {
        name: Text::from_bytes(alloc, name)?,
        direction,
    })
}

/// A module with the input A, the output Y and one instance.
fn module(alloc: Global, kind: &[u8]) -> Result<Module, Fail> {
    let mut ports = Items::new(alloc);
    ports.push(port(alloc, b"A", Direction::Input)?)?;
    ports.push(port(alloc, b"Y", Direction::Output)?)?;
    let mut elements = Items::new(alloc);
    elements.push(element(alloc, kind)?)?;
    Ok(Module {
        name: Text::from_bytes(alloc, b"M")?,
        ports,
        supplies: Items::new(alloc),
        elements,
    })
}

/// A primitive that is no table of its inputs but X everywhere.
fn primitives(alloc: Global) -> Result<Primitives, Fail> {
    let text = UdpText {
        name: Text::from_bytes(alloc, b"unknown")?,
        sequential: false,
        inputs: 1,
        rows: Items::new(alloc),
    };
    let mut tables = Items::new(alloc);
    tables.push(udp_table::build(alloc, &text)?)?;
    Ok(Primitives::new(alloc, tables)?)
}

/// The network of the module, whose one input pin is A.
fn network(
    rt: &impl Abort,
    alloc: Global,
    kind: &[u8],
) -> Result<Result<ModuleNet, GateRefusal>, Fail> {
    let module = module(alloc, kind)?;
    let mut inputs = Items::new(alloc);
    inputs.push(Text::from_bytes(alloc, b"A")?)?;
    assert!(rt; drive_nets(module.elements.as_slice()));
    let primitives = primitives(alloc)?;
    Ok(build(alloc, &module, &primitives, inputs.as_slice(), &[]))
}

#[test]
fn nets_have_the_names_of_the_module(rt: HostRuntime) -> Result<(), Fail> {
    let net = network(&rt, rt.alloc(), b"not")??;
    assert_eq!(rt; net.net_of(b"A"), Some(0));
    assert_eq!(rt; net.net_of(b"Y"), Some(1));
    assert_eq!(rt; net.net_of(b"B"), None);
    Ok(())
}

#[test]
fn an_inverter_settles(rt: HostRuntime) -> Result<(), Fail> {
    let net = network(&rt, rt.alloc(), b"not")??;
    let mut nets = [Tern::Unknown; 2];
    assert_eq!(rt; nets.len(), net.network().nets());
    net.network().settle(&[Tern::One], &[], &mut nets);
    assert_eq!(rt; nets, [Tern::One, Tern::Zero]);
    Ok(())
}

#[test]
fn an_unknown_word_is_refused(rt: HostRuntime) -> Result<(), Fail> {
    let refused = network(&rt, rt.alloc(), b"latch")?;
    assert!(rt; matches!(&refused, Err(GateRefusal::UnknownUdp(_))));
    Ok(())
}

#[test]
fn primitives_are_found_by_their_names(rt: HostRuntime) -> Result<(), Fail> {
    let primitives = primitives(rt.alloc())?;
    assert!(rt; primitives.get(b"unknown").is_some());
    assert!(rt; primitives.get(b"latch").is_none());
    Ok(())
}
