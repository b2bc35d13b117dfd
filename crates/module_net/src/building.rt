//! From a module to its network.
ghost use Rattle.std.specs.Prelude.{◌≡◌, ◌<◌, IfOk, IfErr, length, Some, slice_get};
ghost use Rattle.module_net.specs.Building.{IsNetOf, IsRefused};
ghost use Rattle.module_net.specs.Elements.{DriveNets};
ghost use Rattle.module_net.specs.Refusing.{IsPlaced, IsNamed};

use crate::elements::{check_elements, tables_of, used_in};
use crate::gates::{gates_of, state_nets_of};
use crate::naming::nets;
use crate::net::ModuleNet;
use crate::outside::givens;
use crate::primitives::Primitives;
use crate::refusal::GateRefusal;
use gate_settle::{ConnectRefusal, connect};
use std::alloc::Global;
use tern_core::Tern;
use text_scan::{NoMemory, Text};
use verilog_source::Module;

fn net_name(alloc: Global, nets: &[Text], net: usize) -> Result<Text, NoMemory>
    requires { net < length nets.now }
    ensures { IfOk result (λ name. slice_get nets.now net ≡ Some name) }
{
    nets[net].copied(alloc)
}

// The refusal of a network, told by the net's name.
fn named(alloc: Global, nets: &[Text], refusal: ConnectRefusal) -> Result<GateRefusal, NoMemory>
    requires { IsPlaced (length nets.now) refusal }
    ensures { IfOk result (IsNamed nets.now refusal) }
{
    match refusal {
        ConnectRefusal::NoMemory => Ok(GateRefusal::NoMemory),
        ConnectRefusal::TwoDrivers(net) => Ok(GateRefusal::TwoDrivers(net_name(alloc, nets, net)?)),
        ConnectRefusal::Loop(net) => Ok(GateRefusal::Loop(net_name(alloc, nets, net)?)),
    }
}

/// The module's network, where the input pins stand in the order of `inputs` and the supplies have these values.
/// An input or supply that is no port has no effect, and the module's own supplies come before both.
///
/// Elements are refused first, in the order of the text; then the first net that gets a value twice is told, and then
/// the first that depends on itself. A constant may stand in an input's place alone.
pub fn build(
    alloc: Global,
    module: &Module,
    primitives: &Primitives,
    inputs: &[Text],
    supplies: &[(Text, Tern)],
) -> Result<ModuleNet, GateRefusal>
    requires { DriveNets «module».now.elements }
    ensures built { IfOk result (IsNetOf «module».now primitives.now inputs.now supplies.now) }
    ensures refused { IfErr result (IsRefused «module».now primitives.now inputs.now supplies.now) }
{
    let elements = module.elements.as_slice();
    check_elements(alloc, primitives, elements)?;
    let nets = nets(alloc, module)?;
    let used = used_in(alloc, elements)?;
    let tables = tables_of(alloc, primitives, &used)?;
    let given = givens(alloc, module, inputs, supplies, nets.as_slice())?;
    let gates = gates_of(alloc, primitives, &used, &nets, elements)?;
    let state_nets = state_nets_of(alloc, primitives, &nets, elements)?;
    match connect(alloc, given, tables, gates, state_nets) {
        Ok(net) => Ok(ModuleNet { nets, net }),
        Err(refusal) => Err(named(alloc, nets.as_slice(), refusal)?),
    }
}
