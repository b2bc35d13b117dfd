//! The outputs of a cell.
ghost use Rattle.std.specs.Prelude.{◌≡◌, Some};
ghost use Rattle.liberty_meaning.specs.Meaning as spec;

use crate::names::is_output;
use crate::refusal::MeaningRefusal;
use liberty_function::{Program, Scope, Source, TextRefusal, compile_text};
use liberty_source::LibertyPin;
use name_index::Names;
use std::alloc::Global;
use text_scan::{Items, Text};

pub(crate) fn told(place: usize) -> u32
    ensures { result ≡ spec.told place }
{
    if place < 4294967295 {
        place as u32
    } else {
        u32::MAX
    }
}

/// The program of a text that belongs to a pin or an attribute.
pub(crate) fn owned_program(
    alloc: Global,
    scope: &Scope,
    owner: &[u8],
    text: &Text,
) -> Result<Program, MeaningRefusal>
    ensures { spec.IsOwnedAnswer scope.now owner.now (Some text.now) result }
{
    match compile_text(alloc, scope, text.as_bytes()) {
        Ok(program) => Ok(program),
        Err(TextRefusal::NoMemory) => Err(MeaningRefusal::NoMemory),
        Err(TextRefusal::BadFunction(place)) => Err(MeaningRefusal::BadFunction {
            owner: Text::from_bytes(alloc, owner)?,
            place: told(place),
        }),
        Err(TextRefusal::UnknownName(name)) => Err(MeaningRefusal::UnknownName(name)),
    }
}

/// An absent text is the constant 0.
pub(crate) fn optional_program(
    alloc: Global,
    scope: &Scope,
    owner: &[u8],
    text: &Option<Text>,
) -> Result<Program, MeaningRefusal>
    ensures { spec.IsOwnedAnswer scope.now owner.now text.now result }
{
    match text {
        Some(text) => owned_program(alloc, scope, owner, text),
        None => Ok(Program::of_source(alloc, Source::Zero)?),
    }
}

fn node_program(
    alloc: Global,
    nodes: &Names,
    node: &Option<Text>,
) -> Result<Program, MeaningRefusal>
    ensures { spec.IsNodeAnswer nodes.now node.now result }
{
    match node {
        None => Ok(Program::of_source(alloc, Source::Unknown)?),
        Some(name) => match nodes.place_of(name.as_bytes()) {
            Some(k) => Ok(Program::of_source(alloc, Source::State(k))?),
            None => Err(MeaningRefusal::UnknownName(name.copied(alloc)?)),
        },
    }
}

fn output_program(
    alloc: Global,
    scope: &Scope,
    nodes: &Names,
    pin: &LibertyPin,
) -> Result<Program, MeaningRefusal>
    ensures { spec.IsOutputAnswer scope.now nodes.now pin.now result }
{
    match (&pin.function, &pin.state_function) {
        (Some(text), _) | (None, Some(text)) => {
            owned_program(alloc, scope, pin.name.as_bytes(), text)
        }
        (None, None) => node_program(alloc, nodes, &pin.internal_node),
    }
}

/// A program for each output pin, in their order.
pub(crate) fn output_programs(
    alloc: Global,
    scope: &Scope,
    nodes: &Names,
    pins: &[LibertyPin],
) -> Result<Items<Program>, MeaningRefusal>
    ensures { spec.IsOutputsAnswer scope.now nodes.now pins.now result }
{
    let mut programs = Items::new(alloc);
    for pin in pins {
        if is_output(pin) {
            programs.push(output_program(alloc, scope, nodes, pin)?)?;
        }
    }
    Ok(programs)
}
