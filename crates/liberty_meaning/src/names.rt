//! The names of a cell and their places.
ghost use Rattle.std.specs.Prelude.{◌≡◌, ◌++◌, ◌∷◌, [], length, IfOk, OnOk};
ghost use Rattle.liberty_meaning.specs.Names as spec;
ghost use Rattle.liberty_meaning.specs.Names.{input_pins};

use liberty_function::{Scope, Source};
use liberty_source::{LibertyCell, LibertyPin, StateGroup};
use name_index::Names;
use std::alloc::Global;
use text_scan::{Direction, NoMemory, Text};

pub(crate) fn is_input(pin: &LibertyPin) -> bool
    ensures { result ≡ spec.is_direction_input pin.now.direction }
{
    matches!(pin.direction, Direction::Input)
}

pub(crate) fn is_output(pin: &LibertyPin) -> bool
    ensures { result ≡ spec.is_direction_output pin.now.direction }
{
    matches!(pin.direction, Direction::Output)
}

pub(crate) fn is_internal(pin: &LibertyPin) -> bool
    ensures { result ≡ spec.is_direction_internal pin.now.direction }
{
    matches!(pin.direction, Direction::Internal)
}

/// The texts as names that can be looked up.
pub(crate) fn indexed(alloc: Global, texts: &[Text]) -> Result<Names, NoMemory>
    ensures { IfOk result (λ names. names ≡ texts.now) }
{
    let mut names = Names::new(alloc);
    for text in texts {
        names.push(alloc, text.as_bytes())?;
    }
    Ok(names)
}

/// The nodes of a table; none where the cell has no table.
pub(crate) fn table_nodes(state: &StateGroup) -> &[Text]
    ensures { result.now ≡ spec.nodes_of state.now }
{
    match state {
        StateGroup::Rows(rows) => rows.nodes.as_slice(),
        _ => &[],
    }
}

pub(crate) fn variables(state: &StateGroup) -> &[Text]
    ensures { result.now ≡ spec.variables_of state.now }
{
    match state {
        StateGroup::Stateless => &[],
        StateGroup::Ff(ff) => &ff.variables,
        StateGroup::Latch(latch) => &latch.variables,
        StateGroup::Rows(rows) => rows.nodes.as_slice(),
    }
}

fn internal_source(nodes: &Names, node: &Option<Text>) -> Source
    ensures { result ≡ spec.internal_source nodes.now node.now }
{
    match node {
        Some(name) => match nodes.place_of(name.as_bytes()) {
            Some(k) => Source::State(k),
            None => Source::Unknown,
        },
        None => Source::Unknown,
    }
}

fn push_inputs(alloc: Global, names: &mut Scope, pins: &[LibertyPin]) -> Result<(), NoMemory>
    ensures { OnOk result (names.new ≡ names.old ++ spec.inputs_from 0 pins.now) }
{
    let mut k: usize = 0;
    for pin in pins {
        if is_input(pin) {
            names.push(alloc, pin.name.as_bytes(), Source::Input(k))?;
            k += 1;
        }
    }
    Ok(())
}

fn push_internals(
    alloc: Global,
    names: &mut Scope,
    nodes: &Names,
    pins: &[LibertyPin],
) -> Result<(), NoMemory>
    ensures { OnOk result (names.new ≡ names.old ++ spec.internals_of nodes.now pins.now) }
{
    for pin in pins {
        if is_internal(pin) {
            let source = internal_source(nodes, &pin.internal_node);
            names.push(alloc, pin.name.as_bytes(), source)?;
        }
    }
    Ok(())
}

fn push_states(alloc: Global, names: &mut Scope, variables: &[Text]) -> Result<(), NoMemory>
    ensures { OnOk result (names.new ≡ names.old ++ spec.states_from 0 variables.now) }
{
    for (k, name) in variables.iter().enumerate() {
        names.push(alloc, name.as_bytes(), Source::State(k))?;
    }
    Ok(())
}

/// All names of the cell, whose table has these nodes.
pub(crate) fn scope_of(alloc: Global, nodes: &Names, cell: &LibertyCell) -> Result<Scope, NoMemory>
    requires { nodes.now ≡ spec.nodes_of cell.now.state }
    ensures { IfOk result (λ scope. scope ≡ spec.names_of cell.now) }
{
    let pins = cell.pins.as_slice();
    let mut names = Scope::new(alloc);
    push_inputs(alloc, &mut names, pins)?;
    push_internals(alloc, &mut names, nodes, pins)?;
    push_states(alloc, &mut names, variables(&cell.state))?;
    Ok(names)
}

pub(crate) fn input_count(pins: &[LibertyPin]) -> usize
    ensures { result ≡ length (input_pins pins.now) }
{
    let mut count = 0;
    for pin in pins {
        if is_input(pin) {
            count += 1;
        }
    }
    count
}

/// The input pins alone.
pub(crate) fn inputs_scope(alloc: Global, pins: &[LibertyPin]) -> Result<Scope, NoMemory>
    ensures { IfOk result (λ scope. scope ≡ spec.inputs_from 0 pins.now) }
{
    let mut names = Scope::new(alloc);
    push_inputs(alloc, &mut names, pins)?;
    Ok(names)
}
