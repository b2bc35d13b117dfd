//! Single gates. `net_rows` has the other cases.
ghost use Rattle.std.specs.Prelude.{◌≡◌, [], ◌∷◌, length, IfOk};

use super::*;
use std::alloc::Global;
use std::process::Abort;
use std::test::Fail;
use tern_core::Tern;
use text_scan::{Items, Text};
use udp_table::{OrderRoom, Udp, build};
use verilog_source::UdpText;

/// A gate from the net 0 and another one to the net 2.
fn gate(alloc: Global, function: Function, second: usize) -> Result<Gate, Fail>
    ensures function { IfOk result (λ g. g.function ≡ function) }
    ensures output { IfOk result (λ g. g.outputs ≡ 2 ∷ []) }
{
    let mut inputs = Items::new(alloc);
    inputs.push(Operand::Net(0))?;
    inputs.push(Operand::Net(second))?;
    let mut outputs = Items::new(alloc);
    outputs.push(2)?;
    Ok(Gate {
        element: 0,
        function,
        inputs,
        outputs,
    })
}

/// Two pins on the nets 0 and 1, and one more net.
fn three_nets(alloc: Global) -> Result<Items<Given>, Fail>
    ensures { IfOk result (λ g. length g ≡ 3) }
{
    let mut given = Items::new(alloc);
    given.push(Given::Pin(0))?;
    given.push(Given::Pin(1))?;
    given.push(Given::Floating)?;
    Ok(given)
}

/// An AND gate of the net 0 and another one.
fn and_gate(alloc: Global, second: usize) -> Result<Result<GateNet, ConnectRefusal>, Fail> {
    let function = Function::Logic {
        fold: Fold::And,
        inverted: false,
    };
    let mut gates = Vec::new(alloc);
    gates.push(gate(alloc, function, second)?)?;
    let given = three_nets(alloc)?;
    Ok(connect(alloc, given, Items::new(alloc), gates, Items::new(alloc)))
}

/// The table of a latch: its data, its enable.
fn latch_table(alloc: Global) -> Result<Udp, Fail> {
    let mut rows = Items::new(alloc);
    rows.push(Text::from_bytes(alloc, b"11:?:1")?)?;
    let text = UdpText {
        name: Text::from_bytes(alloc, b"latch")?,
        sequential: true,
        inputs: 2,
        rows,
    };
    Ok(build(alloc, &text)?)
}

fn latch(alloc: Global) -> Result<GateNet, Fail> {
    let mut tables = Items::new(alloc);
    tables.push(latch_table(alloc)?)?;
    let mut state_nets = Items::new(alloc);
    state_nets.push(2)?;
    let mut gates = Vec::new(alloc);
    gates.push(gate(alloc, Function::State { table: 0, state: 0 }, 1)?)?;
    Ok(connect(alloc, three_nets(alloc)?, tables, gates, state_nets)?)
}

#[test]
fn a_gate_settles(rt: HostRuntime) -> Result<(), Fail> {
    let net = and_gate(rt.alloc(), 1)??;
    assert_eq!(rt; net.nets(), 3);
    let mut nets = [Tern::Unknown; 3];
    net.settle(&[Tern::One, Tern::One], &[], &mut nets);
    assert_eq!(rt; nets[2], Tern::One);
    Ok(())
}

#[test]
fn a_gate_that_depends_on_itself_is_told(rt: HostRuntime) -> Result<(), Fail> {
    let refused = and_gate(rt.alloc(), 2)?;
    assert!(rt; matches!(&refused, Err(ConnectRefusal::Loop(2))));
    Ok(())
}

#[test]
fn a_latch_moves_with_its_pins(rt: HostRuntime) -> Result<(), Fail> {
    let net = latch(rt.alloc())?;
    assert_eq!(rt; net.nets(), 3);
    assert_eq!(rt; net.states(), 1);
    assert_eq!(rt; net.state_net(0), 2);
    let mut nets = [Tern::One, Tern::Zero, Tern::Zero];
    let mut new_nets = [Tern::Unknown; 3];
    let mut states = [Tern::Zero; 1];
    let mut room = OrderRoom::new();
    net.move_pins(
        &[Tern::One, Tern::One],
        &mut nets,
        &mut states,
        &mut new_nets,
        &mut room,
    );
    assert_eq!(rt; states[0], Tern::One);
    assert_eq!(rt; new_nets[2], Tern::One);
    Ok(())
}
