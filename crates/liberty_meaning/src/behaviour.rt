//! What a cell does.
ghost use Rattle.std.specs.Prelude.{◌≡◌, length};
ghost use Rattle.std.specs.Option.{option_copied};
ghost use Rattle.liberty_meaning.specs.Behaviour as spec;
ghost use Rattle.liberty_meaning.specs.Next.{pair_value, row_value};
ghost use Rattle.liberty_function.specs.Sources.{value_at};

use crate::pair::Pair;
use crate::pairs::PairPrograms;
use crate::symbols::next_value;
use crate::table::{Row, Table};
use liberty_function::{Program, value_at as value_in};
use tern_core::Tern;
use text_scan::Items;

/// How a cell's state goes on.
#[derive(Drop)]
pub(crate) enum StateProgram {
    Nothing,
    Pair(PairPrograms),
    Rows(Table),
}

/// A cell that has been compiled. Its calls take no memory.
#[derive(Drop)]
pub struct Behaviour {
    pub(crate) inputs: usize,
    pub(crate) states: usize,
    pub(crate) state: StateProgram,
    pub(crate) outputs: Items<Program>,
}

fn pair_value(pair: Pair, k: usize, old: Tern) -> Tern
    ensures { result ≡ pair_value pair k old }
{
    if k == 0 {
        pair.first
    } else if k == 1 {
        pair.second
    } else {
        old
    }
}

fn write_pair(pair: Pair, state: &mut [Tern])
    ensures { state.new ≡ spec.values_from (λ k. pair_value pair k (value_at state.old k)) 0 (length state.old) }
{
    for k in 0..state.len() {
        state[k] = pair_value(pair, k, value_in(state, k));
    }
}

fn row_value(row: Option<&Row>, k: usize, old: Tern) -> Tern
    ensures { result ≡ row_value (option_copied row.entry) k old }
{
    match row {
        Some(row) => match row.next.as_slice().get(k) {
            Some(symbol) => next_value(*symbol, old),
            None => Tern::Unknown,
        },
        None => Tern::Unknown,
    }
}

fn write_row(row: Option<&Row>, state: &mut [Tern])
    ensures { state.new ≡ spec.values_from (λ k. row_value (option_copied row.entry) k (value_at state.old k)) 0 (length state.old) }
{
    for k in 0..state.len() {
        state[k] = row_value(row, k, value_in(state, k));
    }
}

impl Behaviour {
    /// The number of input pins.
    #[tactic(auto, unfolding(crate::specs::Behaviour::inputs_of))]
    pub fn inputs(&self) -> usize
        ensures { result ≡ spec.inputs_of self.now }
    {
        self.inputs
    }

    /// The number of values of the state.
    #[tactic(auto, unfolding(crate::specs::Behaviour::states_of))]
    pub fn states(&self) -> usize
        ensures { result ≡ spec.states_of self.now }
    {
        self.states
    }

    /// The number of output pins.
    #[tactic(auto, unfolding(crate::specs::Behaviour::outputs_of))]
    pub fn outputs(&self) -> usize
        ensures { result ≡ spec.outputs_of self.now }
    {
        self.outputs.len()
    }

    /// The value of the output pin `k`, counted from 0, at these input pins and this state, in the cell's order. Unknown past
    /// the last output; a pin or a state past a list's end is unknown.
    #[tactic(auto, unfolding(crate::specs::Behaviour::output_value))]
    pub fn output(&self, pins: &[Tern], state: &[Tern], k: usize) -> Tern
        ensures { result ≡ spec.output_value self.now k pins.now state.now }
    {
        match self.outputs.as_slice().get(k) {
            Some(program) => program.value(pins, state),
            None => Tern::Unknown,
        }
    }

    /// Brings the state from the input pins `old` to the input pins `new`. A pin or a state past a list's end is unknown.
    pub fn next(&self, old: &[Tern], new: &[Tern], state: &mut [Tern])
        ensures { state.new ≡ spec.next_state self.now old.now new.now state.old }
    {
        match &self.state {
            StateProgram::Nothing => {}
            StateProgram::Pair(pair) => write_pair(pair.next(old, new, state), state),
            StateProgram::Rows(table) => {
                write_row(table.first_matching(old, new, state), state);
            }
        }
    }
}
