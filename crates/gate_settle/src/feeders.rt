//! The nets that feed each net.

ghost use Rattle.std.specs.Prelude.{◌≡◌, ◌<◌, ◌==◌, ℕ, [], ◌∷◌, ◌&&◌, ◌||◌, length, map, replicate, IfOk, OnOk};
ghost use Rattle.gate_settle.specs.Gates.{is_among};
ghost use Rattle.gate_settle.specs.Order.{is_input, is_fed_by};
ghost use Rattle.gate_settle.specs.Reach.{AreWithin};
ghost use Rattle.gate_settle.specs.Search.{is_edge};

use crate::gate::{Gate, Operand};
use crate::rows::empty_rows;
use std::alloc::Global;
use text_scan::NoMemory;

/// Appends the net of an input.
fn add_input(input: Operand, row: &mut Vec<usize>) -> Result<(), NoMemory>
    ensures { (b : ℕ) → OnOk result (is_among row.new.items b ≡ (is_among row.old.items b || is_input (input ∷ []) b)) }
{
    if let Operand::Net(net) = input {
        row.push(net)?;
    }
    Ok(())
}

/// Appends the nets among these inputs.
fn add_inputs(inputs: &[Operand], row: &mut Vec<usize>) -> Result<(), NoMemory>
    ensures { (b : ℕ) → OnOk result (is_among row.new.items b ≡ (is_among row.old.items b || is_input inputs.now b)) }
{
    for input in inputs {
        add_input(*input, row)?;
    }
    Ok(())
}

/// Appends the inputs of a gate to the row of one of its outputs.
fn add_feeders(inputs: &[Operand], output: usize, rows: &mut [Vec<usize>]) -> Result<(), NoMemory>
    ensures { (a b : ℕ) → a < length rows.old → OnOk result (is_edge (map (λ v. v.items) rows.new) a b ≡ (is_edge (map (λ v. v.items) rows.old) a b || (output == a && is_input inputs.now b))) }
{
    if output < rows.len() {
        add_inputs(inputs, &mut rows[output])?;
    }
    Ok(())
}

/// Appends the inputs of a gate to the row of each of its outputs.
fn add_gate(gate: &Gate, rows: &mut [Vec<usize>]) -> Result<(), NoMemory>
    ensures { (a b : ℕ) → a < length rows.old → OnOk result (is_edge (map (λ v. v.items) rows.new) a b ≡ (is_edge (map (λ v. v.items) rows.old) a b || (is_among gate.now.outputs a && is_input gate.now.inputs b))) }
{
    for output in gate.outputs.as_slice() {
        add_feeders(gate.inputs.as_slice(), *output, rows)?;
    }
    Ok(())
}

/// For each net the nets that feed it.
pub(crate) fn feeders(
    alloc: Global,
    nets: usize,
    gates: &[Gate],
) -> Result<Vec<Vec<usize>>, NoMemory>
    requires { AreWithin gates.now nets }
    ensures count { IfOk result (λ rows. length rows.items ≡ nets) }
    ensures edges { (a b : ℕ) → IfOk result (λ rows. is_edge (map (λ v. v.items) rows.items) a b ≡ is_fed_by gates.now a b) }
{
    let mut rows = empty_rows(alloc, nets)?;
    for gate in gates {
        add_gate(gate, rows.as_mut_slice())?;
    }
    Ok(rows)
}
