//! What compare finds of a cell, step by step.
ghost use Rattle.std.specs.Prelude.{◌≡◌, ◌≤◌, ◌∷◌, IfOk, IsOkAnd, Some, None, false, length};
ghost use Rattle.std.specs.Option.{option_copied, option_map};
ghost use Rattle.liberty_meaning.specs.Cell.{Means};
ghost use Rattle.liberty_meaning.specs.Names.{input_pins, output_pins};
ghost use Rattle.module_net.specs.Elements.{DriveNets};
ghost use Rattle.cell_compare.specs.Compare as spec;
ghost use Rattle.cell_compare.specs.Equal.{SaysEqual, IsEqualPart};
ghost use Rattle.cell_compare.specs.Pins.{two_views, have_many_pins as pins_are_many};

use crate::comparison::Comparison;
use crate::models::Models;
use crate::pins::{compared, have_many_pins, input_count, input_names, supplies_of, two_views};
use crate::reasons::{gate_reason, meaning_reason};
use crate::rows::{Output, Testbench, outputs_of};
use crate::tally::{Disagreement, Tally};
use gate_settle::laws::one_settled;
use liberty_meaning::{Behaviour, compile};
use liberty_source::{CellPart, LibertyCell};
use module_net::{ModuleNet, build, drive_nets};
use pin_tables::pin_findings;
use std::alloc::Global;
use text_scan::{LimitKind, NoMemory, Text};
use verdict_text::{Code, Finding, Mismatch, Reason, View};
use verilog_source::{Module, ModulePart};

const MAX_INPUTS: usize = 12;

const MAX_GATES: usize = 512;

fn over(kind: LimitKind, number: u32) -> Comparison
    ensures { spec.refused (spec.over kind number) result }
{
    Comparison::Refused(Reason::Limit { kind, number })
}

fn not_read(alloc: Global, view: View, construct: &[u8], line: u32) -> Result<Comparison, NoMemory>
    ensures { IfOk result (spec.refused (spec.not_read view construct.now line)) }
{
    Ok(Comparison::Refused(Reason::Construct {
        view,
        word: Text::from_bytes(alloc, construct)?,
        line,
    }))
}

// ---- the vectors

fn output_name(alloc: Global, output: Option<&Output>) -> Result<Text, NoMemory>
    ensures { IfOk result (λ name. name ≡ spec.output_name (option_copied output.entry)) }
{
    match output {
        Some(output) => output.name.copied(alloc),
        None => Text::from_bytes(alloc, b""),
    }
}

fn finding_of(alloc: Global, outputs: &[Output], found: Disagreement) -> Result<Finding, NoMemory>
    ensures { IfOk result (λ finding. finding ≡ spec.finding_of outputs.now found) }
{
    Ok(Finding {
        code: Code::M1,
        pin: Some(output_name(alloc, outputs.get(found.output))?),
        view: View::Verilog,
        mismatch: Some(Mismatch {
            row: found.row,
            change: None,
            liberty: found.liberty,
            other: found.verilog,
        }),
        waiver: None,
    })
}

fn first_finding(
    alloc: Global,
    outputs: &[Output],
    first: Option<Disagreement>,
) -> Result<Option<Finding>, NoMemory>
    ensures { IfOk result (λ finding. finding ≡ option_map (spec.finding_of outputs.now) first) }
{
    match first {
        Some(found) => Ok(Some(finding_of(alloc, outputs, found)?)),
        None => Ok(None),
    }
}

fn counted(alloc: Global, outputs: &[Output], tally: Tally) -> Result<Comparison, NoMemory>
    ensures { IfOk result (λ c. c ≡ spec.counted outputs.now tally) }
{
    Ok(Comparison::Vectors {
        vectors: tally.rows,
        defined: tally.defined,
        first: first_finding(alloc, outputs, tally.first)?,
    })
}

/// Compares the outputs at every vector.
fn over_vectors(
    alloc: Global,
    cell: &LibertyCell,
    behaviour: Behaviour,
    net: ModuleNet,
) -> Result<Comparison, NoMemory>
    requires means { Means cell.now behaviour }
    requires inputs { length (input_pins cell.now.pins) ≤ 12 }
    requires outputs { length (output_pins cell.now.pins) ≤ 64 }
    ensures { IfOk result (spec.AreCompared behaviour cell.now net) }
{
    one_settled(net.network());
    let outputs = outputs_of(alloc, &net, cell.pins.as_slice())?;
    let inputs = behaviour.inputs();
    let testbench = Testbench {
        behaviour,
        net,
        outputs,
    };
    let tally = testbench.count(alloc, inputs)?;
    counted(alloc, testbench.outputs.as_slice(), tally)
}

// ---- the network

fn over_network(
    alloc: Global,
    cell: &LibertyCell,
    behaviour: Behaviour,
    net: ModuleNet,
) -> Result<Comparison, NoMemory>
    requires means { Means cell.now behaviour }
    requires inputs { length (input_pins cell.now.pins) ≤ 12 }
    requires outputs { length (output_pins cell.now.pins) ≤ 64 }
    ensures { IfOk result (spec.IsOverNetwork behaviour cell.now net) }
{
    if 0 < behaviour.states() || 0 < net.network().states() {
        return Ok(Comparison::Refused(Reason::NoTable));
    }
    over_vectors(alloc, cell, behaviour, net)
}

fn over_tables(
    alloc: Global,
    cell: &LibertyCell,
    behaviour: Behaviour,
    module: &Module,
    models: &Models,
) -> Result<Comparison, NoMemory>
    requires means { Means cell.now behaviour }
    requires inputs { length (input_pins cell.now.pins) ≤ 12 }
    requires outputs { length (output_pins cell.now.pins) ≤ 64 }
    requires nets { DriveNets «module».now.elements }
    ensures { IfOk result (spec.IsOverPrimitives behaviour cell.now «module».now models.now.primitives) }
{
    let primitives = models.primitives();
    if let Some(reason) = primitives.first_reason(alloc, module.elements.as_slice())? {
        return Ok(Comparison::Refused(reason));
    }
    let inputs = input_names(alloc, cell.pins.as_slice())?;
    let supplies = supplies_of(alloc, cell.pins.as_slice())?;
    match build(
        alloc,
        module,
        &primitives.tables,
        inputs.as_slice(),
        supplies.as_slice(),
    ) {
        Ok(net) => over_network(alloc, cell, behaviour, net),
        Err(refusal) => Ok(Comparison::Refused(gate_reason(refusal)?)),
    }
}

fn over_elements(
    alloc: Global,
    cell: &LibertyCell,
    behaviour: Behaviour,
    module: &Module,
    models: &Models,
) -> Result<Comparison, NoMemory>
    requires means { Means cell.now behaviour }
    requires inputs { length (input_pins cell.now.pins) ≤ 12 }
    requires outputs { length (output_pins cell.now.pins) ≤ 64 }
    ensures { IfOk result (spec.IsOverElements behaviour cell.now «module».now models.now.primitives) }
{
    if !drive_nets(module.elements.as_slice()) {
        return not_read(alloc, View::Verilog, b"constant", 0);
    }
    over_tables(alloc, cell, behaviour, module, models)
}

fn over_gates(
    alloc: Global,
    cell: &LibertyCell,
    behaviour: Behaviour,
    module: &Module,
    models: &Models,
) -> Result<Comparison, NoMemory>
    requires means { Means cell.now behaviour }
    requires inputs { length (input_pins cell.now.pins) ≤ 12 }
    requires outputs { length (output_pins cell.now.pins) ≤ 64 }
    ensures { IfOk result (spec.IsOverGates behaviour cell.now «module».now models.now.primitives) }
{
    if MAX_GATES < module.elements.len() {
        return Ok(over(LimitKind::Gates, 512));
    }
    over_elements(alloc, cell, behaviour, module, models)
}

// ---- the cell and its module

fn over_meaning(
    alloc: Global,
    cell: &LibertyCell,
    module: &Module,
    models: &Models,
) -> Result<Comparison, NoMemory>
    requires inputs { length (input_pins cell.now.pins) ≤ 12 }
    requires outputs { length (output_pins cell.now.pins) ≤ 64 }
    ensures { IfOk result (spec.IsOverMeaning cell.now «module».now models.now.primitives) }
{
    match compile(alloc, cell) {
        Ok(behaviour) => over_gates(alloc, cell, behaviour, module, models),
        Err(refusal) => Ok(Comparison::Refused(meaning_reason(refusal)?)),
    }
}

fn over_inputs(
    alloc: Global,
    cell: &LibertyCell,
    module: &Module,
    models: &Models,
) -> Result<Comparison, NoMemory>
    requires outputs { length (output_pins cell.now.pins) ≤ 64 }
    ensures { IfOk result (spec.IsOverModule cell.now (Some «module».now) models.now.primitives) }
{
    if MAX_INPUTS < input_count(cell.pins.as_slice()) {
        return Ok(over(LimitKind::Inputs, 12));
    }
    over_meaning(alloc, cell, module, models)
}

fn over_module(
    alloc: Global,
    cell: &LibertyCell,
    module: Option<&Module>,
    models: &Models,
) -> Result<Comparison, NoMemory>
    requires present { option_copied «module» ≡ None → ⊥ }
    requires outputs { length (output_pins cell.now.pins) ≤ 64 }
    ensures { IfOk result (spec.IsOverModule cell.now (option_copied «module».entry) models.now.primitives) }
{
    match module {
        Some(module) => over_inputs(alloc, cell, module, models),
        None => unreachable!(),
    }
}

fn over_views(
    alloc: Global,
    cell: &LibertyCell,
    module: Option<&Module>,
    models: &Models,
) -> Result<Comparison, NoMemory>
    ensures { IfOk result (spec.IsOverViews cell.now (option_copied «module».entry) models.now.primitives) }
{
    let views = two_views(alloc, cell, module)?;
    if have_many_pins(&views) {
        return Ok(over(LimitKind::Pins, 64));
    }
    let findings = compared(alloc, pin_findings(alloc, &views)?)?;
    if findings.len() > 0 {
        return Ok(Comparison::Pins(findings));
    }
    over_module(alloc, cell, module, models)
}

fn over_part(
    alloc: Global,
    cell: &LibertyCell,
    part: Option<&ModulePart>,
    models: &Models,
) -> Result<Comparison, NoMemory>
    ensures { IfOk result (spec.IsOverPart cell.now (option_copied part.entry) models.now.primitives) }
{
    match part {
        Some(
            ModulePart::Refused {
                construct,
                line,
                ..
            },
        ) => not_read(alloc, View::Verilog, construct.as_bytes(), *line),
        Some(ModulePart::Whole(module)) => over_views(alloc, cell, Some(module), models),
        None => over_views(alloc, cell, None, models),
    }
}

/// Compares a cell with the module of its name.
///
/// The first thing that applies is found: the cell or its module isn't read; a view has more than 64 pins; the pins
/// differ; there are more than 12 inputs; the cell has no meaning; the module has more than 512 elements, or they make
/// no network; the cell holds a state. Else every vector of input values is compared, 0 before 1, the first input
/// first: each output that Liberty defines must have its value in the settled network.
pub fn compare_part(alloc: Global, part: &CellPart, models: &Models) -> Result<Comparison, NoMemory>
    ensures comparison { IfOk result (spec.IsComparison part.now models.now) }
    // Where nothing differs, the views are equal.
    ensures equal { IfOk result (λ c. SaysEqual c → IsEqualPart part.now models.now) }
{
    match part {
        CellPart::Refused {
            construct,
            line,
            ..
        } => not_read(alloc, View::Liberty, construct.as_bytes(), *line),
        CellPart::Whole(cell) => {
            over_part(alloc, cell, models.module(cell.name.as_bytes()), models)
        }
    }
}
