//! The gates of a module, in the order of the text.
ghost use Rattle.std.specs.Prelude.{◌≡◌, ◌<◌, ◌+◌, ◌^◌, ◌++◌, IfOk, OnOk};
ghost use Rattle.module_net.specs.Elements as spec;

use crate::elements::{Places, driven, gate_of, holds_state, output_terminals};
use crate::primitives::Primitives;
use gate_settle::Gate;
use name_index::Names;
use std::alloc::Global;
use text_scan::{Items, NoMemory};
use verilog_source::Element;

fn next_place(holds_state: bool, state: usize) -> usize
    requires { state + 1 < 2 ^ 64 }
    ensures { result ≡ spec.next_state_place holds_state state }
{
    if holds_state { state + 1 } else { state }
}

/// All elements as gates.
pub fn gates_of(
    alloc: Global,
    primitives: &Primitives,
    used: &Names,
    nets: &Names,
    elements: &[Element],
) -> Result<Vec<Gate>, NoMemory>
    ensures { IfOk result (λ gates. gates.items ≡ spec.gates_from primitives.now used.now nets.now 0 0 elements.now) }
{
    let mut gates = Vec::new(alloc);
    let mut state = 0;
    for (place, element) in elements.iter().enumerate() {
        let places = Places {
            element: place,
            state,
        };
        gates.push(gate_of(alloc, primitives, used, nets, places, element)?)?;
        state = next_place(holds_state(primitives, element), state);
    }
    Ok(gates)
}

fn add_state_net(
    primitives: &Primitives,
    nets: &Names,
    element: &Element,
    state_nets: &mut Items<usize>,
) -> Result<(), NoMemory>
    ensures { OnOk result (state_nets.new ≡ state_nets.old ++ spec.state_net_by (spec.holds_state primitives.now element.now) nets.now element.now) }
{
    if !holds_state(primitives, element) {
        return Ok(());
    }
    driven(nets, output_terminals(element), state_nets)
}

/// For each state the net that shows it.
pub fn state_nets_of(
    alloc: Global,
    primitives: &Primitives,
    nets: &Names,
    elements: &[Element],
) -> Result<Items<usize>, NoMemory>
    ensures { IfOk result (λ state_nets. state_nets ≡ spec.state_nets_of primitives.now nets.now elements.now) }
{
    let mut state_nets = Items::new(alloc);
    for element in elements {
        add_state_net(primitives, nets, element, &mut state_nets)?;
    }
    Ok(state_nets)
}
