//! Gates in an order of dependence.

ghost use Rattle.std.specs.Prelude.{◌≡◌, ◌+◌, ◌≤◌, ◌<◌, ◌++◌, ℕ, List, [], ◌∷◌, Bool, true, false, sum_by, length, map, take, replicate, slice_index_or, slice_set, MatchOption, IfOk, OnOk};
ghost use Rattle.gate_settle.specs.declared.gate.Gate.{Gate};
ghost use Rattle.gate_settle.specs.declared.gate.Operand.TheVariants.{Net};
ghost use Rattle.gate_settle.specs.Order.{is_known, is_operand_known, all_known, is_input, none_ready, marked, is_ordered, known_after, known_at_first, drivers};
ghost use Rattle.gate_settle.specs.Reach.{AreWithin};
ghost use Rattle.gate_settle.specs.Waiting.{AllScanned, IsMissing, gates_in, gates_within, woken, emptied};

use crate::gate::{Gate, Operand};
use crate::rows::empty_rows;
use std::alloc::Global;
use text_scan::NoMemory;

/// A gate, and the place of an input that it waits for. The inputs before that one are known.
#[derive(Drop)]
struct Waiter {
    gate: Gate,
    input: usize,
}

/// The place of an input whose value isn't known, and its net.
#[derive(Clone, Copy)]
struct Missing {
    input: usize,
    net: usize,
}

/// The input's net, if its value isn't known.
fn unknown_net(known: &[bool], input: Operand) -> Option<usize>
    ensures { MatchOption result (is_operand_known known.now input ≡ true) (λ n. (input ≡ Net n) × (is_known known.now n ≡ false) × (n < length known.now)) }
{
    match input {
        Operand::Net(net) if net < known.len() && !known[net] => Some(net),
        _ => None,
    }
}

/// The first input that isn't known, where those before the place `from` are.
fn next_missing(known: &[bool], inputs: &[Operand], from: usize) -> Option<Missing>
    requires { all_known known.now (take from inputs.now) ≡ true }
    ensures { MatchOption result (all_known known.now inputs.now ≡ true) (IsMissing known.now inputs.now) }
{
    for input in from..inputs.len() {
        if let Some(net) = unknown_net(known, inputs[input]) {
            return Some(Missing { input, net });
        }
    }
    None
}

fn mark(outputs: &[usize], mark: bool, known: &mut [bool])
    ensures { known.new ≡ marked outputs.now mark known.old }
{
    for output in outputs {
        if *output < known.len() {
            known[*output] = mark;
        }
    }
}

/// A mark for each net: whether no gate drives it.
fn known_at_first(alloc: Global, nets: usize, gates: &[Gate]) -> Result<Vec<bool>, NoMemory>
    ensures { IfOk result (λ known. known.items ≡ known_at_first nets gates.now) }
{
    let mut known = vec![in alloc; true; nets]?;
    for gate in gates {
        mark(gate.outputs.as_slice(), false, known.as_mut_slice());
    }
    Ok(known)
}

/// The gates, each at its first input.
fn at_first_input(alloc: Global, mut gates: Vec<Gate>) -> Result<Vec<Waiter>, NoMemory>
    ensures gates { (f : Gate → ℕ) → IfOk result (λ fresh. gates_in f fresh.items ≡ sum_by f gates.items) }
    ensures scanned { (known : List Bool) → IfOk result (λ fresh. AllScanned known fresh.items) }
{
    let mut fresh = Vec::new(alloc);
    while let Some(gate) = gates.pop() {
        fresh.push(Waiter { gate, input: 0 })?;
    }
    Ok(fresh)
}

/// Lets a gate wait for the value of a net.
fn wait(rows: &mut [Vec<Waiter>], net: usize, waiter: Waiter) -> Result<(), NoMemory>
    requires { net < length rows.old }
    ensures { let old = map (λ v. v.items) rows.old in OnOk result (map (λ v. v.items) rows.new ≡ slice_set old net (slice_index_or old net [] ++ waiter ∷ [])) }
{
    rows[net].push(waiter)?;
    Ok(())
}

/// Takes the gates that wait for a net.
fn wake_row(net: usize, rows: &mut [Vec<Waiter>], fresh: &mut Vec<Waiter>) -> Result<(), NoMemory>
    ensures rows { OnOk result (map (λ v. v.items) rows.new ≡ slice_set (map (λ v. v.items) rows.old) net []) }
    ensures fresh { OnOk result (fresh.new.items ≡ fresh.old.items ++ slice_index_or (map (λ v. v.items) rows.old) net []) }
{
    if net < rows.len() {
        fresh.append(&mut rows[net])?;
    }
    Ok(())
}

/// Takes the gates that wait for one of these nets.
fn wake(
    outputs: &[usize],
    rows: &mut [Vec<Waiter>],
    fresh: &mut Vec<Waiter>,
) -> Result<(), NoMemory>
    ensures rows { OnOk result (map (λ v. v.items) rows.new ≡ emptied outputs.now (map (λ v. v.items) rows.old)) }
    ensures fresh { OnOk result (fresh.new.items ≡ woken outputs.now (map (λ v. v.items) rows.old) fresh.old.items) }
{
    for output in outputs {
        wake_row(*output, rows, fresh)?;
    }
    Ok(())
}

/// Appends the gates of one row.
fn unpack(mut row: Vec<Waiter>, gates: &mut Vec<Gate>) -> Result<(), NoMemory>
    ensures { (f : Gate → ℕ) → OnOk result (sum_by f gates.new.items ≡ sum_by f gates.old.items + gates_in f row.items) }
{
    while let Some(waiter) = row.pop() {
        let Waiter { gate, input: _ } = waiter;
        gates.push(gate)?;
    }
    Ok(())
}

/// The gates of all rows.
fn unpack_all(alloc: Global, mut rows: Vec<Vec<Waiter>>) -> Result<Vec<Gate>, NoMemory>
    ensures { (f : Gate → ℕ) → IfOk result (λ gates. sum_by f gates.items ≡ gates_within f (map (λ v. v.items) rows.items)) }
{
    let mut gates = Vec::new(alloc);
    while let Some(row) = rows.pop() {
        unpack(row, &mut gates)?;
    }
    Ok(gates)
}

/// Gates in an order of dependence, and those that can't stand in one.
#[derive(Drop)]
pub(crate) struct Arranged {
    pub sorted: Vec<Gate>,
    pub waiting: Vec<Gate>,
}

/// Takes each gate as soon as its inputs are known. Until then it waits for one of them, and goes on from there when that
/// one becomes known, so that each input of a gate is looked at once, and once more where it is waited for.
pub(crate) fn arrange(alloc: Global, nets: usize, gates: Vec<Gate>) -> Result<Arranged, NoMemory>
    requires within { AreWithin gates.items nets }
    requires drivers { (k : ℕ) → k < nets → drivers gates.items k ≤ 1 }
    ensures gates { (f : Gate → ℕ) → IfOk result (λ a. sum_by f a.sorted.items + sum_by f a.waiting.items ≡ sum_by f gates.items) }
    ensures ordered { IfOk result (λ a. is_ordered (known_at_first nets gates.items) a.sorted.items ≡ true) }
    ensures stuck { IfOk result (λ a. none_ready (known_after a.sorted.items true (known_at_first nets gates.items)) a.waiting.items ≡ true) }
{
    let mut known = known_at_first(alloc, nets, &gates)?;
    let mut fresh = at_first_input(alloc, gates)?;
    let mut rows = empty_rows(alloc, nets)?;
    let mut sorted = Vec::new(alloc);
    while let Some(waiter) = fresh.pop() {
        let Waiter { gate, input } = waiter;
        match next_missing(known.as_slice(), gate.inputs.as_slice(), input) {
            Some(Missing { input, net }) => {
                wait(rows.as_mut_slice(), net, Waiter { gate, input })?;
            }
            None => {
                let outputs = gate.outputs.as_slice();
                mark(outputs, true, known.as_mut_slice());
                wake(outputs, rows.as_mut_slice(), &mut fresh)?;
                sorted.push(gate)?;
            }
        }
    }
    let waiting = unpack_all(alloc, rows)?;
    Ok(Arranged { sorted, waiting })
}
