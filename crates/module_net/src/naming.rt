//! The nets of a module by their names.
ghost use Rattle.std.specs.Prelude.{◌≡◌, ◌++◌, ◌∷◌, [], IfOk, OnOk, map};
ghost use Rattle.std.specs.List.{flat_map};
ghost use Rattle.module_net.specs.Naming as spec;

use crate::name_list::add;
use name_index::Names;
use std::alloc::Global;
use tern_core::Tern;
use text_scan::{NoMemory, Text};
use verilog_source::{Element, Module, Port, Terminal};

#[tactic(auto, using(crate::proofs::Firsts::firsts_append))]
fn add_ports(alloc: Global, names: &mut Names, ports: &[Port]) -> Result<(), NoMemory>
    ensures { OnOk result (names.new ≡ names.old ++ spec.firsts names.old (map (λ p. p.name) ports.now)) }
{
    for port in ports {
        add(alloc, names, port.name.as_bytes())?;
    }
    Ok(())
}

#[tactic(auto, using(crate::proofs::Firsts::firsts_append))]
fn add_supplies(alloc: Global, names: &mut Names, supplies: &[(Text, Tern)]) -> Result<(), NoMemory>
    ensures { OnOk result (names.new ≡ names.old ++ spec.firsts names.old (map (λ s. s.0) supplies.now)) }
{
    for supply in supplies {
        add(alloc, names, supply.0.as_bytes())?;
    }
    Ok(())
}

fn add_terminal(alloc: Global, names: &mut Names, terminal: &Terminal) -> Result<(), NoMemory>
    ensures { OnOk result (names.new ≡ names.old ++ spec.firsts names.old (spec.terminal_names terminal.now)) }
{
    match terminal {
        Terminal::Net(name) => add(alloc, names, name.as_bytes()),
        Terminal::Constant(_) => Ok(()),
    }
}

#[tactic(auto, using(crate::proofs::Firsts::firsts_append))]
fn add_terminals(alloc: Global, names: &mut Names, terminals: &[Terminal]) -> Result<(), NoMemory>
    ensures { OnOk result (names.new ≡ names.old ++ spec.firsts names.old (flat_map spec.terminal_names terminals.now)) }
{
    for terminal in terminals {
        add_terminal(alloc, names, terminal)?;
    }
    Ok(())
}

#[tactic(auto, unfolding(crate::specs::Naming::element_names))]
fn add_element(alloc: Global, names: &mut Names, element: &Element) -> Result<(), NoMemory>
    ensures { OnOk result (names.new ≡ names.old ++ spec.firsts names.old (spec.element_names element.now)) }
{
    add_terminals(alloc, names, element.terminals.as_slice())
}

#[tactic(auto, using(crate::proofs::Firsts::firsts_append))]
fn add_elements(alloc: Global, names: &mut Names, elements: &[Element]) -> Result<(), NoMemory>
    ensures { OnOk result (names.new ≡ names.old ++ spec.firsts names.old (flat_map spec.element_names elements.now)) }
{
    for element in elements {
        add_element(alloc, names, element)?;
    }
    Ok(())
}

/// The module's nets by first appearance: in its ports, in its supplies, in the terminals of its elements.
#[tactic(auto, using(crate::proofs::Firsts::three_lists))]
pub fn nets(alloc: Global, module: &Module) -> Result<Names, NoMemory>
    ensures { IfOk result (λ names. names ≡ spec.nets_of «module».now) }
{
    let mut names = Names::new(alloc);
    add_ports(alloc, &mut names, module.ports.as_slice())?;
    add_supplies(alloc, &mut names, module.supplies.as_slice())?;
    add_elements(alloc, &mut names, module.elements.as_slice())?;
    Ok(names)
}
