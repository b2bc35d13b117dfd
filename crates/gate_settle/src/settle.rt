ghost use Rattle.std.specs.Prelude.{◌≡◌, ◌≤◌, length, map, take};
ghost use Rattle.gate_settle.specs.Gates.{value_at, operand_value, conjunction, disjunction, parity, folded, inverted_if, table_value, gate_value};
ghost use Rattle.gate_settle.specs.Settled.{written, values_after, next_state, states_after_gate, nets_after, states_after};

use crate::gate::{Fold, Function, Gate, Operand};
use tern_core::{Tern, and, not, or, xor};
use udp_table::{OrderRoom, Udp};

/// The value at a place, X past the end.
pub(crate) fn value_at(values: &[Tern], place: usize) -> Tern
    ensures { result ≡ value_at values.now place }
{
    match values.get(place) {
        Some(value) => *value,
        None => Tern::Unknown,
    }
}

impl Operand {
    pub(crate) fn value(self, nets: &[Tern]) -> Tern
        ensures { result ≡ operand_value nets.now self }
    {
        match self {
            Operand::Net(place) => value_at(nets, place),
            Operand::Constant(value) => value,
        }
    }
}

fn conjunction(nets: &[Tern], inputs: &[Operand]) -> Tern
    ensures { result ≡ conjunction (map (operand_value nets.now) inputs.now) }
{
    let mut value = Tern::One;
    for input in inputs {
        value = and(value, input.value(nets));
    }
    value
}

fn disjunction(nets: &[Tern], inputs: &[Operand]) -> Tern
    ensures { result ≡ disjunction (map (operand_value nets.now) inputs.now) }
{
    let mut value = Tern::Zero;
    for input in inputs {
        value = or(value, input.value(nets));
    }
    value
}

fn parity(nets: &[Tern], inputs: &[Operand]) -> Tern
    ensures { result ≡ parity (map (operand_value nets.now) inputs.now) }
{
    let mut value = Tern::Zero;
    for input in inputs {
        value = xor(value, input.value(nets));
    }
    value
}

/// The inputs taken together.
pub(crate) fn folded(fold: Fold, nets: &[Tern], inputs: &[Operand]) -> Tern
    ensures { result ≡ folded fold (map (operand_value nets.now) inputs.now) }
{
    match fold {
        Fold::And => conjunction(nets, inputs),
        Fold::Or => disjunction(nets, inputs),
        Fold::Xor => parity(nets, inputs),
    }
}

pub(crate) fn inverted_if(inverted: bool, value: Tern) -> Tern
    ensures { result ≡ inverted_if inverted value }
{
    if inverted { not(value) } else { value }
}

/// Gives each of these nets the value.
pub(crate) fn write(outputs: &[usize], value: Tern, nets: &mut [Tern])
    ensures { nets.new ≡ written outputs.now value nets.old }
{
    for output in outputs {
        if *output < nets.len() {
            nets[*output] = value;
        }
    }
}

/// The most inputs of a primitive.
const WIDTH: usize = 10;

/// The values of a primitive's inputs, and X behind them.
fn levels(nets: &[Tern], inputs: &[Operand]) -> [Tern; WIDTH]
    requires { length inputs.now ≤ 10 }
    ensures { take (length inputs.now) result ≡ map (operand_value nets.now) inputs.now }
{
    let mut levels = [Tern::Unknown; WIDTH];
    for (place, input) in inputs.iter().enumerate() {
        levels[place] = input.value(nets);
    }
    levels
}

/// What the combinational table at this place answers.
fn table_value(tables: &[Udp], table: usize, nets: &[Tern], inputs: &[Operand]) -> Tern
    ensures { result ≡ table_value tables.now table (map (operand_value nets.now) inputs.now) }
{
    match tables.get(table) {
        Some(udp) if !udp.sequential() && udp.inputs() == inputs.len() => {
            let levels = levels(nets, inputs);
            udp.level(&levels[..inputs.len()])
        }
        _ => Tern::Unknown,
    }
}

/// What a sequential primitive's state becomes when its inputs change from the old nets to the new.
fn next_state(
    tables: &[Udp],
    table: usize,
    old: &[Tern],
    new: &[Tern],
    inputs: &[Operand],
    state: Tern,
    room: &mut OrderRoom,
) -> Tern
    ensures { result ≡ next_state tables.now table (map (operand_value old.now) inputs.now) (map (operand_value new.now) inputs.now) state }
{
    match tables.get(table) {
        Some(udp) if udp.sequential() && udp.inputs() == inputs.len() => {
            let old = levels(old, inputs);
            let new = levels(new, inputs);
            udp.change(&old[..inputs.len()], &new[..inputs.len()], state, room)
        }
        _ => Tern::Unknown,
    }
}

impl Gate {
    /// What the gate gives.
    fn value(&self, tables: &[Udp], states: &[Tern], nets: &[Tern]) -> Tern
        ensures { result ≡ gate_value tables.now states.now nets.now self.now }
    {
        let inputs = self.inputs.as_slice();
        match self.function {
            Function::Logic { fold, inverted } => inverted_if(inverted, folded(fold, nets, inputs)),
            Function::Table(table) => table_value(tables, table, nets, inputs),
            Function::State { state, .. } => value_at(states, state),
        }
    }

    /// Moves the state that the gate holds, if it holds one.
    fn move_state(
        &self,
        tables: &[Udp],
        old: &[Tern],
        nets: &[Tern],
        states: &mut [Tern],
        room: &mut OrderRoom,
    )
        ensures { states.new ≡ states_after_gate tables.now old.now nets.now states.old self.now self.now.function }
    {
        if let Function::State { table, state } = self.function
            && state < states.len()
        {
            let inputs = self.inputs.as_slice();
            states[state] = next_state(tables, table, old, nets, inputs, states[state], room);
        }
    }
}

/// The values after each gate has given its own, one after the other.
pub(crate) fn settle(tables: &[Udp], gates: &[Gate], states: &[Tern], nets: &mut [Tern])
    ensures { nets.new ≡ values_after tables.now states.now gates.now nets.old }
{
    for gate in gates {
        let value = gate.value(tables, states, nets);
        write(gate.outputs.as_slice(), value, nets);
    }
}

/// The values and the states after each gate has moved its state and given its value, one after the other.
pub(crate) fn advance(
    tables: &[Udp],
    gates: &[Gate],
    old: &[Tern],
    nets: &mut [Tern],
    states: &mut [Tern],
    room: &mut OrderRoom,
)
    ensures nets { nets.new ≡ nets_after tables.now old.now gates.now nets.old states.old }
    ensures states { states.new ≡ states_after tables.now old.now gates.now nets.old states.old }
{
    for gate in gates {
        gate.move_state(tables, old, nets, states, room);
        let value = gate.value(tables, states, nets);
        write(gate.outputs.as_slice(), value, nets);
    }
}
