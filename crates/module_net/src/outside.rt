//! What nets have from outside a module's elements.
ghost use Rattle.std.specs.Prelude.{◌≡◌, IfOk, map};
ghost use Rattle.module_net.specs.Outside as spec;

use gate_settle::Given;
use name_index::Names;
use std::alloc::Global;
use tern_core::Tern;
use text_scan::{Items, NoMemory, Text};
use verilog_source::{Module, Port};

fn texts_index(alloc: Global, texts: &[Text]) -> Result<Names, NoMemory>
    ensures { IfOk result (λ names. names ≡ texts.now) }
{
    let mut names = Names::new(alloc);
    for text in texts {
        names.push(alloc, text.as_bytes())?;
    }
    Ok(names)
}

fn ports_index(alloc: Global, ports: &[Port]) -> Result<Names, NoMemory>
    ensures { IfOk result (λ names. names ≡ map (λ p. p.name) ports.now) }
{
    let mut names = Names::new(alloc);
    for port in ports {
        names.push(alloc, port.name.as_bytes())?;
    }
    Ok(names)
}

fn values_index(alloc: Global, values: &[(Text, Tern)]) -> Result<Names, NoMemory>
    ensures { IfOk result (λ names. names ≡ map (λ s. s.0) values.now) }
{
    let mut names = Names::new(alloc);
    for value in values {
        names.push(alloc, value.0.as_bytes())?;
    }
    Ok(names)
}

/// The value beside the first such name, where the index is that of the names.
#[tactic(auto, using(crate::proofs::Values::no_value, crate::proofs::Values::first_value, crate::proofs::Values::stands_within))]
fn value_of(index: &Names, values: &[(Text, Tern)], name: &[u8]) -> Option<Tern>
    requires { index.now ≡ map (λ s. s.0) values.now }
    ensures { result ≡ spec.value_of values.now name.now }
{
    match index.place_of(name) {
        Some(place) => Some(values[place].1),
        None => None,
    }
}

/// The names of ports, inputs and supplies, each found by an index.
#[derive(Drop)]
pub struct Outside {
    ports: Names,
    own: Names,
    inputs: Names,
    supplies: Names,
}

impl Outside {
    ghost use Rattle.module_net.specs.OutsideIndexes.{AreIndexes};

    fn of(
        alloc: Global,
        module: &Module,
        inputs: &[Text],
        supplies: &[(Text, Tern)],
    ) -> Result<Outside, NoMemory>
        ensures { IfOk result (AreIndexes «module».now inputs.now supplies.now) }
    {
        Ok(Outside {
            ports: ports_index(alloc, module.ports.as_slice())?,
            own: values_index(alloc, module.supplies.as_slice())?,
            inputs: texts_index(alloc, inputs)?,
            supplies: values_index(alloc, supplies)?,
        })
    }

    // What a port of this name has from outside.
    fn port_given(&self, supplies: &[(Text, Tern)], name: &[u8]) -> Option<Given>
        requires { self.now.supplies ≡ map (λ s. s.0) supplies.now }
        ensures { result ≡ spec.port_given self.now.inputs supplies.now name.now }
    {
        if let Some(place) = self.inputs.place_of(name) {
            return Some(Given::Pin(place));
        }
        let value = value_of(&self.supplies, supplies, name)?;
        Some(Given::Fixed(value))
    }

    fn given(&self, module: &Module, supplies: &[(Text, Tern)], name: &[u8]) -> Given
        requires own { self.now.own ≡ map (λ s. s.0) «module».now.supplies }
        requires ports { self.now.ports ≡ map (λ p. p.name) «module».now.ports }
        requires supplies { self.now.supplies ≡ map (λ s. s.0) supplies.now }
        ensures { result ≡ spec.given_of «module».now self.now.inputs supplies.now name.now }
    {
        if let Some(value) = value_of(&self.own, module.supplies.as_slice(), name) {
            return Given::Fixed(value);
        }
        if !self.ports.contains(name) {
            return Given::Floating;
        }
        self.port_given(supplies, name).unwrap_or(Given::Floating)
    }
}

/// What each of these nets has from outside.
pub fn givens(
    alloc: Global,
    module: &Module,
    inputs: &[Text],
    supplies: &[(Text, Tern)],
    nets: &[Text],
) -> Result<Items<Given>, NoMemory>
    ensures { IfOk result (λ given. given ≡ map (spec.given_of «module».now inputs.now supplies.now) nets.now) }
{
    let outside = Outside::of(alloc, module, inputs, supplies)?;
    let mut given = Items::new(alloc);
    for net in nets {
        given.push(outside.given(module, supplies, net.as_bytes()))?;
    }
    Ok(given)
}
