//! The pin tables of the four views.
ghost use Rattle.std.specs.Prelude.{◌≡◌, ◌++◌, ◌∷◌, [], IfOk, OnOk, map};
ghost use Rattle.std.specs.List.{list_any};
ghost use Rattle.pin_tables.specs.Makers as spec;
ghost use Rattle.pin_tables.specs.Index.{IsIndexOf};
ghost use Rattle.pin_tables.specs.Tables.{said_of};

use crate::index::PinIndex;
use crate::lookup::PinLookup;
use crate::rule::is_supply;
use crate::table::{Pin, PinTable};
use circuit::Subcircuit;
use lef_source::{Macro, MacroPin};
use liberty_source::{LibertyCell, LibertyPin};
use std::alloc::Global;
use text_scan::{Direction, Items, NoMemory, PinKind, Text};
use verilog_source::{Module, Port};

/// Liberty's table: the cell's pins and supplies but its internal pins. Where the cell has no supply of its own, the
/// technology's supplies come after them, without those whose name a pin of the cell has, internal ones included.
pub fn liberty_pins(
    alloc: Global,
    cell: &LibertyCell,
    supplies: &[(Text, PinKind)],
) -> Result<PinTable, NoMemory>
    ensures { IfOk result (λ table. table ≡ spec.liberty_table cell.now supplies.now) }
{
    let own = cell.pins.as_slice();
    let mut pins = Vec::new(alloc);
    add_cell_pins(alloc, own, &mut pins)?;
    add_lent_supplies(alloc, own, supplies, &mut pins)?;
    Ok(PinTable {
        cell: cell.name.copied(alloc)?,
        pins: Items::from_vec(pins),
    })
}

/// Verilog's table: the module's ports, each of the kind that Liberty's table gives its name, else a signal.
pub fn module_pins(alloc: Global, module: &Module, liberty: &PinTable) -> Result<PinTable, NoMemory>
    ensures { IfOk result (λ table. table ≡ spec.module_table «module».now liberty.now) }
{
    let known = PinLookup::of(alloc, liberty.pins.as_slice())?;
    let mut pins = Vec::new(alloc);
    add_ports(alloc, &known, module.ports.as_slice(), &mut pins)?;
    Ok(PinTable {
        cell: module.name.copied(alloc)?,
        pins: Items::from_vec(pins),
    })
}

/// CDL's table: the subcircuit's pins, each with the direction that `*.PININFO` gives it, absent without, and of the kind
/// that Liberty's table gives its name, else a signal.
pub fn subcircuit_pins(
    alloc: Global,
    part: &Subcircuit,
    liberty: &PinTable,
) -> Result<PinTable, NoMemory>
    ensures { IfOk result (λ table. table ≡ spec.subcircuit_table part.now liberty.now) }
{
    let known = PinLookup::of(alloc, liberty.pins.as_slice())?;
    let mut pins = Vec::new(alloc);
    add_card_pins(alloc, &known, part.pins.as_slice(), &mut pins)?;
    Ok(PinTable {
        cell: part.name.copied(alloc)?,
        pins: Items::from_vec(pins),
    })
}

/// LEF's table: the macro's pins, each with the direction and the kind that the macro gives it (LEF/DEF 5.8 Language
/// Reference, Macro Pin Statement).
pub fn macro_pins(alloc: Global, part: &Macro) -> Result<PinTable, NoMemory>
    ensures { IfOk result (λ table. table ≡ spec.macro_table part.now) }
{
    let mut pins = Vec::new(alloc);
    add_macro_pins(alloc, part.pins.as_slice(), &mut pins)?;
    Ok(PinTable {
        cell: part.name.copied(alloc)?,
        pins: Items::from_vec(pins),
    })
}

fn has_supply(pins: &[LibertyPin]) -> bool
    ensures { result ≡ list_any spec.is_supply_pin pins.now }
{
    pins.iter().any(|pin| is_supply(pin.kind))
}

fn add_cell_pins(alloc: Global, own: &[LibertyPin], pins: &mut Vec<Pin>) -> Result<(), NoMemory>
    ensures { OnOk result (pins.new.items ≡ pins.old.items ++ spec.cell_pins own.now) }
{
    for pin in own {
        add_cell_pin(alloc, pin, pins)?;
    }
    Ok(())
}

fn add_cell_pin(alloc: Global, pin: &LibertyPin, pins: &mut Vec<Pin>) -> Result<(), NoMemory>
    ensures { OnOk result (pins.new.items ≡ pins.old.items ++ spec.cell_pin pin.now) }
{
    if let Direction::Internal = pin.direction {
        return Ok(());
    }
    add(alloc, &pin.name, pin.direction, pin.kind, pins)
}

fn add(
    alloc: Global,
    name: &Text,
    direction: Direction,
    kind: PinKind,
    pins: &mut Vec<Pin>,
) -> Result<(), NoMemory>
    ensures { OnOk result (pins.new.items ≡ pins.old.items ++ spec.pin name.now direction kind ∷ []) }
{
    pins.push(Pin {
        name: name.copied(alloc)?,
        direction,
        kind,
    })?;
    Ok(())
}

// The names of all pins of the cell.
fn names_of(alloc: Global, own: &[LibertyPin]) -> Result<PinIndex, NoMemory>
    ensures { IfOk result (IsIndexOf (map spec.as_pin own.now)) }
{
    let mut names = PinIndex::new(alloc);
    for pin in own {
        let _ = names.insert(alloc, &pin.name, pin.direction, pin.kind)?;
    }
    Ok(names)
}

fn add_lent_supplies(
    alloc: Global,
    own: &[LibertyPin],
    supplies: &[(Text, PinKind)],
    pins: &mut Vec<Pin>,
) -> Result<(), NoMemory>
    ensures { OnOk result (pins.new.items ≡ pins.old.items ++ spec.lent_supplies own.now supplies.now) }
{
    if supplies.is_empty() || has_supply(own) {
        return Ok(());
    }
    add_supplies(alloc, &names_of(alloc, own)?, supplies, pins)
}

fn add_supplies(
    alloc: Global,
    names: &PinIndex,
    supplies: &[(Text, PinKind)],
    pins: &mut Vec<Pin>,
) -> Result<(), NoMemory>
    ensures { OnOk result (pins.new.items ≡ pins.old.items ++ spec.indexed_supplies names.now supplies.now) }
{
    for (name, kind) in supplies {
        add_supply(alloc, names, name, *kind, pins)?;
    }
    Ok(())
}

fn add_supply(
    alloc: Global,
    names: &PinIndex,
    name: &Text,
    kind: PinKind,
    pins: &mut Vec<Pin>,
) -> Result<(), NoMemory>
    ensures { OnOk result (pins.new.items ≡ pins.old.items ++ spec.indexed_supply names.now (name.now, kind)) }
{
    if names.get(name.as_bytes()).is_some() {
        return Ok(());
    }
    add(alloc, name, Direction::Absent, kind, pins)
}

fn add_ports(
    alloc: Global,
    known: &PinLookup<'_>,
    ports: &[Port],
    pins: &mut Vec<Pin>,
) -> Result<(), NoMemory>
    ensures { OnOk result (pins.new.items ≡ pins.old.items ++ map (spec.port_pin known.now) ports.now) }
{
    for port in ports {
        let kind = kind_of(known, &port.name);
        add(alloc, &port.name, port.direction, kind, pins)?;
    }
    Ok(())
}

fn add_card_pins(
    alloc: Global,
    known: &PinLookup<'_>,
    card: &[(Text, Direction)],
    pins: &mut Vec<Pin>,
) -> Result<(), NoMemory>
    ensures { OnOk result (pins.new.items ≡ pins.old.items ++ map (spec.card_pin known.now) card.now) }
{
    for (name, direction) in card {
        let kind = kind_of(known, name);
        add(alloc, name, *direction, kind, pins)?;
    }
    Ok(())
}

fn add_macro_pins(alloc: Global, own: &[MacroPin], pins: &mut Vec<Pin>) -> Result<(), NoMemory>
    ensures { OnOk result (pins.new.items ≡ pins.old.items ++ map spec.macro_pin own.now) }
{
    for pin in own {
        add(alloc, &pin.name, pin.direction, pin.kind, pins)?;
    }
    Ok(())
}

fn kind_of(known: &PinLookup<'_>, name: &Text) -> PinKind
    ensures { result ≡ spec.kind_or_signal (said_of known.now name.now) }
{
    match known.get(name.as_bytes()) {
        None => PinKind::Signal,
        Some(role) => role.kind,
    }
}
