//! From a cell to what it does.
ghost use Rattle.std.specs.Prelude.{◌≡◌, MatchOption, Some, None};
ghost use Rattle.liberty_meaning.specs.Cell as spec;
ghost use Rattle.liberty_meaning.specs.TableMeaning.{IsTableAnswer};

use crate::behaviour::{Behaviour, StateProgram};
use crate::names::{
    indexed, input_count, inputs_scope, is_internal, scope_of, table_nodes, variables,
};
use crate::outputs::output_programs;
use crate::pairs::{ff_programs, latch_programs};
use crate::refusal::MeaningRefusal;
use crate::table::Table;
use crate::table_rows::{columns_of, made_rows};
use crate::table_text::rows_of_text;
use liberty_function::Scope;
use liberty_source::{LibertyCell, LibertyPin, RowsText, StateGroup};
use name_index::Names;
use std::alloc::Global;
use text_scan::Text;

fn table_of(alloc: Global, pins: &[LibertyPin], rows: &RowsText) -> Result<Table, MeaningRefusal>
    ensures { IsTableAnswer pins.now rows.now result }
{
    let inputs = inputs_scope(alloc, pins)?;
    let columns = columns_of(alloc, &inputs, rows.inputs.as_slice())?;
    let texts = rows_of_text(alloc, rows.table.as_bytes())?;
    let rows = made_rows(alloc, rows.inputs.len(), rows.nodes.len(), texts.as_slice())?;
    Ok(Table { columns, rows })
}

fn state_program(
    alloc: Global,
    scope: &Scope,
    cell: &LibertyCell,
) -> Result<StateProgram, MeaningRefusal>
    ensures { spec.IsStateAnswer scope.now cell.now.pins cell.now.state result }
{
    match &cell.state {
        StateGroup::Stateless => Ok(StateProgram::Nothing),
        StateGroup::Ff(ff) => Ok(StateProgram::Pair(ff_programs(alloc, scope, ff)?)),
        StateGroup::Latch(latch) => Ok(StateProgram::Pair(latch_programs(alloc, scope, latch)?)),
        StateGroup::Rows(rows) => Ok(StateProgram::Rows(table_of(
            alloc,
            cell.pins.as_slice(),
            rows,
        )?)),
    }
}

/// The node that an internal pin shows, where the cell has none of that name.
fn unknown_node<'a>(nodes: &Names, pin: &'a LibertyPin) -> Option<&'a Text>
    ensures { MatchOption result (spec.internal_or nodes.now pin.now None ≡ None) (λ name. spec.internal_or nodes.now pin.now None ≡ Some name.now) }
{
    if !is_internal(pin) {
        return None;
    }
    match &pin.internal_node {
        Some(name) => match nodes.place_of(name.as_bytes()) {
            Some(_) => None,
            None => Some(name),
        },
        None => None,
    }
}

fn check_internals(alloc: Global, nodes: &Names, pins: &[LibertyPin]) -> Result<(), MeaningRefusal>
    ensures { spec.IsInternalsAnswer nodes.now pins.now result }
{
    for pin in pins {
        if let Some(name) = unknown_node(nodes, pin) {
            return Err(MeaningRefusal::UnknownName(name.copied(alloc)?));
        }
    }
    Ok(())
}

/// What the cell does: its state group, its internal pins and its outputs, refused in this order.
pub fn compile(alloc: Global, cell: &LibertyCell) -> Result<Behaviour, MeaningRefusal>
    ensures { spec.IsCompiled cell.now result }
{
    let nodes = indexed(alloc, table_nodes(&cell.state))?;
    let scope = scope_of(alloc, &nodes, cell)?;
    let state = state_program(alloc, &scope, cell)?;
    let pins = cell.pins.as_slice();
    check_internals(alloc, &nodes, pins)?;
    let outputs = output_programs(alloc, &scope, &nodes, pins)?;
    Ok(Behaviour {
        inputs: input_count(pins),
        states: variables(&cell.state).len(),
        state,
        outputs,
    })
}
