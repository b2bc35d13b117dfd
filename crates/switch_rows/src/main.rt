//! Makes networks of a CDL netlist's subcircuits, and lets them respond and wait: `switch_rows NETLIST [TECH CASES]..`.
//!
//! A line of a file of cases is `CELL INPUTS SUPPLIES [ACTION]..`: inputs and supplies are lists with commas, or `-`, and
//! a supply is `NAME=VALUE`. An action is `pins=VALUES`, which has 0, 1 or X for each input, `NODE=VALUE`, which changes a
//! storage node, `find=NAME`, `step`, which is one response, or `wait`.
#![tactic(auto)]

ghost use Rattle.std.specs.Prelude.{◌≤◌, All, IsTrue};

mod case;
mod rig;

use anyhow::Result;
use case::{Action, Case};
use cdl_reader::{Netlist, Subcircuit, SubcircuitPart, read_netlist};
use circuit::{Size, Tech};
use rig::{Rig, rig_of};
use std::alloc::{Alloc, AllocError, Global};
use std::io::Print;
use std::{env, fs};
use switch_response::{NetRefusal, SwitchNet};
use switch_run::Rest;
use tech_reader::read_tech;
use text_scan::{Limits, Text};

/// Whether the sizes are those of storage nodes, as `read_tech` gives them.
fn are_sizes(sizes: &[Size]) -> bool
    ensures { IsTrue result → All (λ z. (1 ≤ z.strength) × (z.strength ≤ 3)) sizes.now }
{
    sizes
        .iter()
        .all(|size| 1 <= size.strength && size.strength <= 3)
}

fn subcircuit_of<'a>(netlist: &'a Netlist, name: &[u8]) -> Option<&'a Subcircuit> {
    for part in netlist.parts.as_slice() {
        if let SubcircuitPart::Whole(subcircuit) = part {
            if subcircuit.name.as_bytes() == name {
                return Some(subcircuit);
            }
        }
    }
    None
}

fn show_refusal<R: Print>(rt: &R, refusal: &NetRefusal) -> Result<()> {
    match refusal {
        NetRefusal::SupplyShort(name) => println!(rt; "refused: supply short {name}")?,
        NetRefusal::UnknownModel(name) => println!(rt; "refused: unknown model {name}")?,
        NetRefusal::TooManyNodes(count) => println!(rt; "refused: {count} nodes")?,
        NetRefusal::NoMemory => println!(rt; "no memory")?,
    }
    Ok(())
}

fn shown_node(alloc: Global, net: &SwitchNet, node: usize) -> Result<Text> {
    if node < net.nodes() {
        Ok(Text::from_bytes(alloc, net.node_name(node)).map_err(|_| AllocError)?)
    } else {
        Ok(Text::from_bytes(alloc, b"-").map_err(|_| AllocError)?)
    }
}

fn show_nodes<R: Print + Alloc<A = Global>>(rt: &R, net: &SwitchNet) -> Result<()> {
    print!(rt; "{} nodes:", net.nodes())?;
    for node in 0..net.nodes() {
        print!(rt; " {}", shown_node(rt.alloc(), net, node)?)?;
    }
    println!(rt; "")?;
    Ok(())
}

fn show_values<R: Print>(rt: &R, rig: &Rig) -> Result<()> {
    for node in 0..rig.net().nodes() {
        print!(rt; "{}", rig.value(node).map_or("-", |value| value.symbol()))?;
    }
    println!(rt; "")?;
    Ok(())
}

fn show_place<R: Print>(rt: &R, net: &SwitchNet, name: &Text) -> Result<()> {
    match net.node_of(name.as_bytes()) {
        Some(node) => println!(rt; "{name} is node {node}")?,
        None => println!(rt; "{name} is no node")?,
    }
    Ok(())
}

fn show_wait<R: Print + Alloc<A = Global>>(rt: &R, rig: &mut Rig) -> Result<()> {
    match rig.settle() {
        Rest::Settled => print!(rt; "settled ")?,
        Rest::Moving(node) => {
            print!(rt; "moving {} ", shown_node(rt.alloc(), rig.net(), node)?)?;
        }
    }
    show_values(rt, rig)
}

fn act<R: Print + Alloc<A = Global>>(rt: &R, rig: &mut Rig, action: &Action) -> Result<()> {
    match action {
        Action::Pins(values) => {
            if !rig.set_pins(values) {
                println!(rt; "another number of pins")?;
            }
            Ok(())
        }
        Action::Set(name, value) => {
            if !rig.set(name.as_bytes(), *value) {
                println!(rt; "{name} is no node")?;
            }
            Ok(())
        }
        Action::Find(name) => show_place(rt, rig.net(), name),
        Action::Step => {
            rig.step();
            show_values(rt, rig)
        }
        Action::Wait => show_wait(rt, rig),
    }
}

fn show_network<R: Print + Alloc<A = Global>>(
    rt: &R,
    case: &Case,
    part: &Subcircuit,
    tech: &Tech,
) -> Result<()>
    requires { All (λ z. (1 ≤ z.strength) × (z.strength ≤ 3)) tech.now.sizes }
{
    let (supplies, inputs) = (case.supplies.as_slice(), case.inputs.as_slice());
    match rig_of(rt.alloc(), part, tech, supplies, inputs) {
        Err(refusal) => show_refusal(rt, &refusal),
        Ok(mut rig) => {
            show_nodes(rt, rig.net())?;
            for action in case.actions.as_slice() {
                act(rt, &mut rig, action)?;
            }
            Ok(())
        }
    }
}

fn show_case<R: Print + Alloc<A = Global>>(
    rt: &R,
    netlist: &Netlist,
    tech: &Tech,
    line: &str,
) -> Result<()>
    requires { All (λ z. (1 ≤ z.strength) × (z.strength ≤ 3)) tech.now.sizes }
{
    let case = Case::of(rt.alloc(), line).map_err(|_| AllocError)?;
    println!(rt; "{}", case.cell)?;
    match subcircuit_of(netlist, case.cell.as_bytes()) {
        Some(part) => show_network(rt, &case, part, tech),
        None => {
            println!(rt; "no such subcircuit")?;
            Ok(())
        }
    }
}

fn show_cases<R: Print + Alloc<A = Global>>(
    rt: &R,
    netlist: &Netlist,
    tech: &Tech,
    lines: &str,
) -> Result<()> {
    if !are_sizes(tech.sizes.as_slice()) {
        println!(rt; "other sizes")?;
        return Ok(());
    }
    for line in lines.lines() {
        show_case(rt, netlist, tech, line)?;
    }
    Ok(())
}

/// Shows the cases of one file with the technology of another.
fn show_files(rt: &HostRuntime, netlist: &Netlist, tech: &str, cases: &str) -> Result<()> {
    let text = fs::read(rt, tech)?;
    let lines = String::from_utf8(fs::read(rt, cases)?)?;
    match read_tech(rt.alloc(), &text, &Limits::standard()) {
        Ok(tech) => show_cases(rt, netlist, &tech, lines.as_str()),
        Err(refusal) => {
            println!(rt; "refused: {refusal:?}")?;
            Ok(())
        }
    }
}

fn main(rt: HostRuntime) -> Result<()> {
    let mut words = env::args(&rt)?.skip(1);
    let Some(path) = words.next() else {
        println!(rt; "usage: switch_rows NETLIST [TECH CASES]..")?;
        return Ok(());
    };
    let text = fs::read(&rt, path.as_str())?;
    let netlist = match read_netlist(rt.alloc(), &text, &Limits::standard()) {
        Ok(netlist) => netlist,
        Err(refusal) => {
            println!(rt; "refused: {refusal:?}")?;
            return Ok(());
        }
    };
    while let Some(tech) = words.next() {
        let Some(cases) = words.next() else {
            return Ok(());
        };
        show_files(&rt, &netlist, tech.as_str(), cases.as_str())?;
    }
    Ok(())
}
