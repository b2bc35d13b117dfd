//! Networks that are settled and moved.
ghost use Rattle.std.specs.Prelude.{◌≡◌, length};

use crate::case::{Case, values_of};
use anyhow::Result;
use gate_settle::GateNet;
use module_net::ModuleNet;
use std::alloc::{Alloc, AllocError, Global};
use std::io::Print;
use tern_core::Tern;
use text_scan::Text;
use udp_table::OrderRoom;

fn value_at(nets: &[Tern], place: usize) -> &'static str {
    nets.get(place).map_or("-", |value| value.symbol())
}

/// The values of the nets of these names, `-` where there is no such net.
fn show_nets<R: Print>(rt: &R, net: &ModuleNet, names: &[Text], nets: &[Tern]) -> Result<()> {
    for name in names {
        let value = match net.net_of(name.as_bytes()) {
            Some(place) => value_at(nets, place),
            None => "-",
        };
        print!(rt; " {name}={value}")?;
    }
    Ok(())
}

/// The states, and the values of the nets that show them.
fn show_states<R: Print>(rt: &R, net: &GateNet, states: &[Tern], nets: &[Tern]) -> Result<()> {
    if net.states() == 0 {
        return Ok(());
    }
    print!(rt; ", states ")?;
    for state in states {
        print!(rt; "{}", state.symbol())?;
    }
    print!(rt; " shown ")?;
    for state in 0..net.states() {
        print!(rt; "{}", value_at(nets, net.state_net(state)))?;
    }
    Ok(())
}

/// Settles the network at first, and moves its pins from then on.
fn advance(
    net: &GateNet,
    begun: bool,
    pins: &[Tern],
    nets: &mut [Tern],
    new_nets: &mut [Tern],
    states: &mut [Tern],
    room: &mut OrderRoom,
)
    requires nets { length nets.old ≡ length net.now.given }
    requires new_nets { length new_nets.old ≡ length net.now.given }
    requires states { length states.old ≡ length net.now.state_nets }
{
    if begun {
        net.move_pins(pins, nets, states, new_nets, room);
    } else {
        net.settle(pins, states, nets);
    }
}

fn show_steps<R: Print + Alloc<A = Global>>(
    rt: &R,
    case: &Case,
    net: &ModuleNet,
    nets: &mut [Tern],
    new_nets: &mut [Tern],
    states: &mut [Tern],
) -> Result<()>
    requires nets { length nets.old ≡ length net.now.network.given }
    requires new_nets { length new_nets.old ≡ length net.now.network.given }
    requires states { length states.old ≡ length net.now.network.state_nets }
{
    let mut room = OrderRoom::new();
    let mut begun = false;
    let network = net.network();
    for step in case.steps.as_slice() {
        let pins = values_of(rt.alloc(), step.as_bytes()).map_err(|_| AllocError)?;
        advance(network, begun, &pins, nets, new_nets, states, &mut room);
        begun = true;
        print!(rt; "{step}")?;
        show_nets(rt, net, case.nets.as_slice(), nets)?;
        show_states(rt, network, states, nets)?;
        println!(rt; "")?;
    }
    Ok(())
}

/// Prints how many nets and states the network has, and its values after each step.
pub fn show<R: Print + Alloc<A = Global>>(rt: &R, case: &Case, net: &ModuleNet) -> Result<()> {
    let network = net.network();
    println!(rt; "{} nets, {} states", network.nets(), network.states())?;
    let mut nets = vec![in rt.alloc(); Tern::Unknown; network.nets()]?;
    let mut new_nets = vec![in rt.alloc(); Tern::Unknown; network.nets()]?;
    let mut states = case.states.clone()?;
    if states.len() != network.states() {
        println!(rt; "other states")?;
        return Ok(());
    }
    show_steps(rt, case, net, &mut nets, &mut new_nets, &mut states)
}
