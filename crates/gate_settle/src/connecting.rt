//! From gates in the order of the text to a network.

ghost use Rattle.std.specs.Prelude.{◌≡◌, ◌+◌, ℕ, true, sum_by, length, IfOk, IfErr, OnOk};
ghost use Rattle.gate_settle.specs.declared.gate.Gate.{Gate};
ghost use Rattle.gate_settle.specs.Settled.{have_own_states, are_places};
ghost use Rattle.gate_settle.specs.Reach.{AreWithin};
ghost use Rattle.gate_settle.specs.Connecting.{IsConnected, IsNotConnected, HaveOneDriver};

use crate::claims::contested;
use crate::gate::{Gate, Given};
use crate::network::GateNet;
use crate::order::{Arranged, arrange};
use crate::reach::first_loop;
use std::alloc::Global;
use text_scan::{Items, NoMemory};
use udp_table::Udp;

/// Why gates make no network.
#[derive(Debug, Drop)]
pub enum ConnectRefusal {
    NoMemory,
    /// The first net that is driven twice, or is driven and has a value from outside.
    TwoDrivers(usize),
    /// The first net that depends on itself.
    Loop(usize),
}

impl From<NoMemory> for ConnectRefusal {
    ghost use Rattle.std.specs.Prelude.{◌≡◌};
    ghost use Rattle.gate_settle.specs.declared.connecting.ConnectRefusal.TheVariants.{NoMemory as refused};

    ghost from_gives = { λ _ e. e ≡ refused };

    fn from(_: NoMemory) -> ConnectRefusal {
        ConnectRefusal::NoMemory
    }
}

/// Refuses a net that is driven twice, or is driven and has a value from outside.
fn check_drivers(alloc: Global, given: &[Given], gates: &[Gate]) -> Result<(), ConnectRefusal>
    ensures ok { OnOk result (HaveOneDriver given.now gates.now (length given.now)) }
    ensures refused { IfErr result (IsNotConnected given.now gates.now) }
{
    match contested(alloc, given, gates)? {
        Some(net) => Err(ConnectRefusal::TwoDrivers(net)),
        None => Ok(()),
    }
}

/// All gates again, in whichever order.
fn together(arranged: Arranged) -> Result<Vec<Gate>, NoMemory>
    ensures { (f : Gate → ℕ) → IfOk result (λ all. sum_by f all.items ≡ sum_by f arranged.sorted.items + sum_by f arranged.waiting.items) }
{
    let Arranged {
        sorted: mut all,
        mut waiting,
    } = arranged;
    while let Some(gate) = waiting.pop() {
        all.push(gate)?;
    }
    Ok(all)
}

/// The network of gates, each net of which has this value from outside. First a net that has two
/// drivers is told, and then one that depends on itself.
pub fn connect(
    alloc: Global,
    given: Items<Given>,
    tables: Items<Udp>,
    gates: Vec<Gate>,
    state_nets: Items<usize>,
) -> Result<GateNet, ConnectRefusal>
    requires within { AreWithin gates.items (length given) }
    requires states { have_own_states (length state_nets) gates.items ≡ true }
    requires nets { are_places (length given) state_nets ≡ true }
    ensures connected { IfOk result (IsConnected given tables gates.items state_nets) }
    ensures refused { IfErr result (IsNotConnected given gates.items) }
{
    let nets = given.len();
    check_drivers(alloc, given.as_slice(), &gates)?;
    let arranged = arrange(alloc, nets, gates)?;
    if arranged.waiting.len() == 0 {
        let gates = Items::from_vec(arranged.sorted);
        return Ok(GateNet {
            given,
            tables,
            gates,
            state_nets,
        });
    }
    let all = together(arranged)?;
    match first_loop(alloc, nets, &all)? {
        Some(net) => Err(ConnectRefusal::Loop(net)),
        None => unreachable!(),
    }
}
