//! The pins of a cell and of its module.
ghost use Rattle.std.specs.Prelude.{◌≡◌, IfOk, length};
ghost use Rattle.std.specs.Option.{option_copied};
ghost use Rattle.liberty_meaning.specs.Names.{is_direction_input, input_pins};
ghost use Rattle.cell_compare.specs.Pins as spec;

use liberty_source::{LibertyCell, LibertyPin};
use pin_tables::{FourViews, PinTable, liberty_pins, module_pins};
use std::alloc::Global;
use tern_core::Tern;
use text_scan::{Direction, Items, NoMemory, PinKind, Text};
use verdict_text::{Code, Finding, View};
use verilog_source::Module;

/// The most pins of a view.
const MAX_PINS: usize = 64;

fn module_table(
    alloc: Global,
    module: Option<&Module>,
    liberty: &PinTable,
) -> Result<Option<PinTable>, NoMemory>
    ensures { IfOk result (λ table. table ≡ spec.verilog_table (option_copied «module».entry) liberty.now) }
{
    match module {
        Some(module) => Ok(Some(module_pins(alloc, module, liberty)?)),
        None => Ok(None),
    }
}

/// The two views that are compared.
pub(crate) fn two_views(
    alloc: Global,
    cell: &LibertyCell,
    module: Option<&Module>,
) -> Result<FourViews, NoMemory>
    ensures { IfOk result (λ views. views ≡ spec.two_views cell.now (option_copied «module».entry)) }
{
    let liberty = liberty_pins(alloc, cell, &[])?;
    let verilog = module_table(alloc, module, &liberty)?;
    Ok(FourViews {
        liberty,
        verilog,
        cdl: None,
        lef: None,
    })
}

fn has_many(table: &PinTable) -> bool
    ensures { result ≡ spec.has_many table.now }
{
    table.pins.len() > MAX_PINS
}

/// Whether a view has more pins than are compared.
pub(crate) fn have_many_pins(views: &FourViews) -> bool
    ensures { result ≡ spec.have_many_pins views.now }
{
    has_many(&views.liberty)
        || match &views.verilog {
            Some(table) => has_many(table),
            None => false,
        }
}

fn is_absence(code: Code) -> bool
    ensures { result ≡ spec.is_absence code }
{
    match code {
        Code::P1 => true,
        _ => false,
    }
}

fn is_layout(view: View) -> bool
    ensures { result ≡ spec.is_layout view }
{
    match view {
        View::Cdl | View::Lef => true,
        _ => false,
    }
}

/// Whether it says that a view is absent which isn't compared.
fn is_beside(finding: &Finding) -> bool
    ensures { result ≡ spec.is_beside finding.now }
{
    is_absence(finding.code) && is_layout(finding.view)
}

/// The findings about the views that are compared.
pub(crate) fn compared(alloc: Global, found: Vec<Finding>) -> Result<Items<Finding>, NoMemory>
    ensures { IfOk result (λ kept. kept ≡ spec.compared found.items) }
{
    let kept: Vec<Finding> = found
        .into_iter()
        .filter(|finding| !is_beside(finding))
        .collect(alloc)?;
    Ok(Items::from_vec(kept))
}

fn is_input(direction: Direction) -> bool
    ensures { result ≡ is_direction_input direction }
{
    match direction {
        Direction::Input => true,
        _ => false,
    }
}

/// The number of input pins.
pub(crate) fn input_count(pins: &[LibertyPin]) -> usize
    ensures { result ≡ length (input_pins pins.now) }
{
    let mut count = 0;
    for pin in pins {
        if is_input(pin.direction) {
            count += 1;
        }
    }
    count
}

/// The input pins' names in Liberty's order.
pub(crate) fn input_names(alloc: Global, pins: &[LibertyPin]) -> Result<Items<Text>, NoMemory>
    ensures { IfOk result (λ names. names ≡ spec.names_of_inputs pins.now) }
{
    let mut names = Items::new(alloc);
    for pin in pins {
        if is_input(pin.direction) {
            names.push(pin.name.copied(alloc)?)?;
        }
    }
    Ok(names)
}

fn supply_value(kind: PinKind) -> Option<Tern>
    ensures { result ≡ spec.supply_value kind }
{
    match kind {
        PinKind::Signal => None,
        PinKind::Power => Some(Tern::One),
        PinKind::Ground => Some(Tern::Zero),
    }
}

fn own_value(pin: &LibertyPin) -> Option<Tern>
    ensures { result ≡ spec.own_value pin.now }
{
    match pin.direction {
        Direction::Internal => None,
        _ => supply_value(pin.kind),
    }
}

/// The cell's power pins at 1 and its ground pins at 0.
pub(crate) fn supplies_of(
    alloc: Global,
    pins: &[LibertyPin],
) -> Result<Items<(Text, Tern)>, NoMemory>
    ensures { IfOk result (λ supplies. supplies ≡ spec.own_supplies pins.now) }
{
    let mut supplies = Items::new(alloc);
    for pin in pins {
        if let Some(value) = own_value(pin) {
            supplies.push((pin.name.copied(alloc)?, value))?;
        }
    }
    Ok(supplies)
}
