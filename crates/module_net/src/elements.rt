//! Elements as gates.
ghost use Rattle.std.specs.Prelude.{◌≡◌, ◌<◌, ◌+◌, ◌^◌, ◌++◌, ◌∷◌, [], None, IfOk, IfErr, OnOk, map, length, is_some, ◌↔◌, IsTrue};
ghost use Rattle.std.specs.List.{flat_map, list_all};
ghost use Rattle.module_net.specs.Elements as spec;
ghost use Rattle.module_net.specs.Naming.{firsts, place_in};
ghost use Rattle.module_net.specs.Refusing.{Tells};

use crate::name_list::{add, place_in};
use crate::primitives::Primitives;
use crate::refusal::GateRefusal;
use crate::word::{element_word, outputs_by};
use gate_settle::{Function, Gate, Operand};
use name_index::Names;
use std::alloc::Global;
use text_scan::{Items, NoMemory};
use udp_table::Udp;
use verilog_source::{Element, Terminal};

// ---- refused elements

fn port_count(alloc: Global, fits: bool, element: &Element) -> Result<(), GateRefusal>
    ensures ok { OnOk result (spec.port_count fits element.now ≡ None) }
    ensures err { IfErr result (Tells (spec.port_count fits element.now)) }
{
    if fits {
        return Ok(());
    }
    Err(GateRefusal::PortCount(element.label.copied(alloc)?))
}

/// Refuses an element whose word is no gate and no primitive, or that has a wrong number of terminals.
fn check_element(
    alloc: Global,
    primitives: &Primitives,
    element: &Element,
) -> Result<(), GateRefusal>
    ensures ok { OnOk result (spec.refused_element primitives.now element.now ≡ None) }
    ensures err { IfErr result (Tells (spec.refused_element primitives.now element.now)) }
{
    let terminals = element.terminals.len();
    if element_word(element).is_some() {
        return port_count(alloc, 1 < terminals, element);
    }
    match primitives.get(element.kind.as_bytes()) {
        Some(table) => port_count(alloc, terminals == table.inputs() + 1, element),
        None => Err(GateRefusal::UnknownUdp(element.kind.copied(alloc)?)),
    }
}

/// Tells the first element that is refused.
pub fn check_elements(
    alloc: Global,
    primitives: &Primitives,
    elements: &[Element],
) -> Result<(), GateRefusal>
    ensures ok { OnOk result (spec.first_refused primitives.now elements.now ≡ None) }
    ensures err { IfErr result (Tells (spec.first_refused primitives.now elements.now)) }
{
    for element in elements {
        check_element(alloc, primitives, element)?;
    }
    Ok(())
}

// ---- primitives that are used

fn add_primitive(alloc: Global, used: &mut Names, element: &Element) -> Result<(), NoMemory>
    ensures { OnOk result (used.new ≡ used.old ++ firsts used.old (spec.primitive_name element.now)) }
{
    if element_word(element).is_some() {
        return Ok(());
    }
    add(alloc, used, element.kind.as_bytes())
}

/// The primitives that elements name, by first use.
pub fn used_in(alloc: Global, elements: &[Element]) -> Result<Names, NoMemory>
    ensures { IfOk result (λ used. used ≡ spec.used_in elements.now) }
{
    let mut used = Names::new(alloc);
    for element in elements {
        add_primitive(alloc, &mut used, element)?;
    }
    Ok(used)
}

fn add_table(
    alloc: Global,
    primitives: &Primitives,
    name: &[u8],
    tables: &mut Items<Udp>,
) -> Result<(), NoMemory>
    ensures { OnOk result (tables.new ≡ tables.old ++ spec.table_list (spec.table_named primitives.now name.now)) }
{
    if let Some(table) = primitives.get(name) {
        tables.push(table.copied(alloc)?)?;
    }
    Ok(())
}

/// The tables of these primitives.
pub fn tables_of(
    alloc: Global,
    primitives: &Primitives,
    used: &Names,
) -> Result<Items<Udp>, NoMemory>
    ensures { IfOk result (λ tables. tables ≡ spec.tables_of primitives.now used.now) }
{
    let mut tables = Items::new(alloc);
    for name in used.as_slice() {
        add_table(alloc, primitives, name.as_bytes(), &mut tables)?;
    }
    Ok(tables)
}

// ---- gates

/// Where an element stands among the elements, and its state among the states.
#[derive(Clone, Copy, Debug)]
pub struct Places {
    pub element: usize,
    pub state: usize,
}

fn operand(nets: &Names, terminal: &Terminal) -> Operand
    ensures { result ≡ spec.operand nets.now terminal.now }
{
    match terminal {
        Terminal::Net(name) => Operand::Net(place_in(nets, name.as_bytes())),
        Terminal::Constant(value) => Operand::Constant(*value),
    }
}

fn operands(alloc: Global, nets: &Names, terminals: &[Terminal]) -> Result<Items<Operand>, NoMemory>
    ensures { IfOk result (λ inputs. inputs ≡ map (spec.operand nets.now) terminals.now) }
{
    let mut inputs = Items::new(alloc);
    for terminal in terminals {
        inputs.push(operand(nets, terminal))?;
    }
    Ok(inputs)
}

fn add_driven(nets: &Names, terminal: &Terminal, outputs: &mut Items<usize>) -> Result<(), NoMemory>
    ensures { OnOk result (outputs.new ≡ outputs.old ++ spec.driven nets.now terminal.now) }
{
    if let Terminal::Net(name) = terminal {
        outputs.push(place_in(nets, name.as_bytes()))?;
    }
    Ok(())
}

pub fn driven(
    nets: &Names,
    terminals: &[Terminal],
    outputs: &mut Items<usize>,
) -> Result<(), NoMemory>
    ensures { OnOk result (outputs.new ≡ outputs.old ++ flat_map (spec.driven nets.now) terminals.now) }
{
    for terminal in terminals {
        add_driven(nets, terminal, outputs)?;
    }
    Ok(())
}

pub fn output_terminals(element: &Element) -> &[Terminal]
    ensures { result.now ≡ spec.output_terminals element.now }
{
    let terminals = element.terminals.as_slice();
    let count = outputs_by(element_word(element), terminals.len());
    if terminals.len() < count {
        return terminals;
    }
    &terminals[..count]
}

fn input_terminals(element: &Element) -> &[Terminal]
    ensures { result.now ≡ spec.input_terminals element.now }
{
    let terminals = element.terminals.as_slice();
    let count = outputs_by(element_word(element), terminals.len());
    if terminals.len() < count {
        return &[];
    }
    &terminals[count..]
}

/// Whether the element holds a state.
pub fn holds_state(primitives: &Primitives, element: &Element) -> bool
    ensures { result ≡ spec.holds_state primitives.now element.now }
{
    if element_word(element).is_some() {
        return false;
    }
    match primitives.get(element.kind.as_bytes()) {
        Some(table) => table.sequential(),
        None => false,
    }
}

fn function(sequential: bool, used: &Names, state: usize, element: &Element) -> Function
    ensures { result ≡ spec.function_by (spec.element_word element.now) sequential (place_in used.now element.now.kind) state }
{
    if let Some(word) = element_word(element) {
        return Function::Logic {
            fold: word.fold,
            inverted: word.inverted,
        };
    }
    let table = place_in(used, element.kind.as_bytes());
    if sequential {
        Function::State { table, state }
    } else {
        Function::Table(table)
    }
}

/// An element as a gate, where so many elements and so many states stand before it.
pub fn gate_of(
    alloc: Global,
    primitives: &Primitives,
    used: &Names,
    nets: &Names,
    places: Places,
    element: &Element,
) -> Result<Gate, NoMemory>
    ensures { IfOk result (λ gate. gate ≡ spec.gate_of primitives.now used.now nets.now places.element places.state element.now) }
{
    let mut outputs = Items::new(alloc);
    driven(nets, output_terminals(element), &mut outputs)?;
    let sequential = holds_state(primitives, element);
    Ok(Gate {
        element: places.element,
        function: function(sequential, used, places.state, element),
        inputs: operands(alloc, nets, input_terminals(element))?,
        outputs,
    })
}

fn is_net(terminal: &Terminal) -> bool
    ensures { result ≡ spec.is_net terminal.now }
{
    matches!(terminal, Terminal::Net(_))
}

fn all_nets(terminals: &[Terminal]) -> bool
    ensures { result ≡ list_all spec.is_net terminals.now }
{
    terminals.iter().all(|terminal| is_net(terminal))
}

/// Whether constants stand in the places of inputs alone.
pub fn drive_nets(elements: &[Element]) -> bool
    ensures { IsTrue result ↔ spec.DriveNets elements.now }
{
    for element in elements {
        if !all_nets(output_terminals(element)) {
            return false;
        }
    }
    true
}
