//! One inverter that drives itself. `switch_rows` has the other cases.

ghost use Rattle.std.specs.Prelude.{◌≡◌, ◌<◌, length, IfOk};
ghost use Rattle.switch_response.specs.Network.{IsRoomFor};

use super::*;
use circuit::{ModelCard, Subcircuit, Supply, Tech, Transistor};
use std::alloc::Global;
use std::marker::Brand;
use std::sync::ledger::{Blank, Ledger};
use std::test::Fail;
use switch_response::{Scratch, State, Steps, SwitchNet, build, respond};
use tern_core::Tern;
use text_scan::{Items, PinKind, Text};

/// A transistor from a supply to the node `y`, which is its gate too.
fn transistor(alloc: Global, supply: &[u8], model: &[u8]) -> Result<Transistor, Fail> {
    Ok(Transistor {
        name: Text::from_bytes(alloc, b"M")?,
        drain: Text::from_bytes(alloc, b"y")?,
        gate: Text::from_bytes(alloc, b"y")?,
        source: Text::from_bytes(alloc, supply)?,
        model: Text::from_bytes(alloc, model)?,
    })
}

fn inverter(alloc: Global) -> Result<Subcircuit, Fail> {
    let mut transistors = Items::new(alloc);
    transistors.push(transistor(alloc, b"VDD", b"p")?)?;
    transistors.push(transistor(alloc, b"VSS", b"n")?)?;
    Ok(Subcircuit {
        name: Text::from_bytes(alloc, b"RING")?,
        pins: Items::new(alloc),
        transistors,
    })
}

fn model(alloc: Global, name: &[u8], p: bool) -> Result<ModelCard, Fail> {
    Ok(ModelCard {
        name: Text::from_bytes(alloc, name)?,
        p,
        strength: 5,
    })
}

fn supply(alloc: Global, name: &[u8], kind: PinKind) -> Result<Supply, Fail> {
    Ok(Supply {
        name: Text::from_bytes(alloc, name)?,
        kind,
    })
}

fn network(alloc: Global) -> Result<SwitchNet, Fail>
    ensures { IfOk result (λ net. net.pins ≡ 0) }
{
    let mut models = Items::new(alloc);
    models.push(model(alloc, b"p", true)?)?;
    models.push(model(alloc, b"n", false)?)?;
    let tech = Tech {
        models,
        sizes: Items::new(alloc),
        supplies: Items::new(alloc),
    };
    let power = supply(alloc, b"VDD", PinKind::Power)?;
    let ground = supply(alloc, b"VSS", PinKind::Ground)?;
    Ok(build(alloc, &inverter(alloc)?, &tech, &[power, ground], &[])?)
}

fn counted<L: Ledger>(
    net: &SwitchNet,
    state: &mut State,
    scratch: &mut Scratch,
    blank: Blank,
) -> Rest
    requires pins { net.now.pins ≡ 0 }
    requires state { length state.old ≡ net.now.net.storage }
    requires scratch { IsRoomFor net.now scratch.old }
    requires name { blank.name ≡ L.name }
    requires parts { blank.parts ≡ L.parts }
    requires share { 0 < blank.parts }
    ensures state { length state.new ≡ net.now.net.storage }
    ensures scratch { IsRoomFor net.now scratch.new }
{
    let mut steps: Steps<L> = Steps::start(blank);
    wait(net, &[], state, scratch, &mut steps)
}

/// A wait whose steps nobody counts.
fn settle(net: &SwitchNet, state: &mut State, scratch: &mut Scratch) -> Rest
    requires pins { net.now.pins ≡ 0 }
    requires state { length state.old ≡ net.now.net.storage }
    requires scratch { IsRoomFor net.now scratch.old }
    ensures state { length state.new ≡ net.now.net.storage }
    ensures scratch { IsRoomFor net.now scratch.new }
{
    counted::<Brand>(net, state, scratch, Blank::new(1))
}

#[test]
fn an_inverter_that_drives_itself_rests_where_it_is_unknown(rt: HostRuntime) -> Result<(), Fail> {
    let alloc = rt.alloc();
    let net = network(alloc)?;
    let mut state = State::unknown(alloc, &net)?;
    let mut scratch = Scratch::new(alloc, &net)?;
    assert_eq!(rt; settle(&net, &mut state, &mut scratch), Rest::Settled);
    assert_eq!(rt; net.nodes(), 1);
    assert_eq!(rt; state.get(0), Tern::Unknown);
    state.set(0, Tern::Zero);
    assert_eq!(rt; settle(&net, &mut state, &mut scratch), Rest::Moving(0));
    assert_eq!(rt; state.get(0), Tern::Zero);
    Ok(())
}

#[test]
fn a_response_inverts(rt: HostRuntime) -> Result<(), Fail> {
    let alloc = rt.alloc();
    let net = network(alloc)?;
    let mut state = State::unknown(alloc, &net)?;
    let mut next = State::unknown(alloc, &net)?;
    let mut scratch = Scratch::new(alloc, &net)?;
    assert_eq!(rt; net.nodes(), 1);
    assert_eq!(rt; net.node_of(b"y"), Some(0));
    assert_eq!(rt; net.node_name(0), b"y".as_slice());
    state.set(0, Tern::Zero);
    respond(&net, &[], &state, &mut scratch, &mut next);
    assert_eq!(rt; next.get(0), Tern::One);
    Ok(())
}
