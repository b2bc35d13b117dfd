//! Where the pins of the views differ.
ghost use Rattle.std.specs.Prelude.{◌≡◌, ◌++◌, ◌∷◌, [], IfOk, OnOk, map};
ghost use Rattle.std.specs.List.Sorted.{IsStrictlySortedBy};
ghost use Rattle.std.specs.Cmp.Lexicographic.{slice_cmp};
ghost use Rattle.std.specs.Ordering.{nat_cmp};
ghost use Rattle.pin_tables.specs.Findings as spec;
ghost use Rattle.pin_tables.specs.Index.{IsIndexOf};
ghost use Rattle.pin_tables.specs.Lookups as looked;
ghost use Rattle.pin_tables.specs.Tables.{name_of};

use crate::absent::{add_absent, push};
use crate::index::PinIndex;
use crate::lookup::PinLookup;
use crate::rule::broken;
use crate::table::{FourViews, Pin, PinTable};
use name_index::Names;
use std::alloc::Global;
use text_scan::{NoMemory, Text};
use verdict_text::{Code, Finding, View};

/// The findings of a cell's pins: of each view that is absent; then of Liberty's pins in their order, each in Verilog,
/// CDL and LEF; then of the names that Liberty lacks, in the order of their bytes.
pub fn pin_findings(alloc: Global, views: &FourViews) -> Result<Vec<Finding>, NoMemory>
    ensures { IfOk result (λ found. spec.ArePinFindings views.now found.items) }
{
    let mut found = Vec::new(alloc);
    add_all_absent(views, &mut found)?;
    let lookups = Lookups::of(alloc, views)?;
    let pins = views.liberty.pins.as_slice();
    let liberty = add_liberty(alloc, pins, &lookups, &mut found)?;
    let others = other_pins(alloc, views, &liberty)?;
    add_others(alloc, &others, &mut found)?;
    Ok(found)
}

fn add_all_absent(views: &FourViews, found: &mut Vec<Finding>) -> Result<(), NoMemory>
    ensures { OnOk result (found.new.items ≡ found.old.items ++ spec.all_absent views.now) }
{
    add_absent(View::Verilog, &views.verilog, found)?;
    add_absent(View::Cdl, &views.cdl, found)?;
    add_absent(View::Lef, &views.lef, found)?;
    Ok(())
}

fn lookup_of<'a>(
    alloc: Global,
    table: &'a Option<PinTable>,
) -> Result<Option<PinLookup<'a>>, NoMemory>
    ensures { IfOk result (λ lookup. lookup ≡ looked.pins_in table.now) }
{
    match table {
        None => Ok(None),
        Some(table) => Ok(Some(PinLookup::of(alloc, table.pins.as_slice())?)),
    }
}

/// The views that are there, by name.
#[derive(Drop)]
struct Lookups<'a> {
    verilog: Option<PinLookup<'a>>,
    cdl: Option<PinLookup<'a>>,
    lef: Option<PinLookup<'a>>,
}

impl<'a> Lookups<'a> {
    fn of(alloc: Global, views: &'a FourViews) -> Result<Lookups<'a>, NoMemory>
        ensures { IfOk result (looked.AreLookups views.now) }
    {
        Ok(Lookups {
            verilog: lookup_of(alloc, &views.verilog)?,
            cdl: lookup_of(alloc, &views.cdl)?,
            lef: lookup_of(alloc, &views.lef)?,
        })
    }

    fn check(&self, alloc: Global, pin: &Pin, found: &mut Vec<Finding>) -> Result<(), NoMemory>
        ensures { OnOk result (found.new.items ≡ found.old.items ++ looked.at_pin self.now pin.now) }
    {
        add_broken(alloc, View::Verilog, &self.verilog, pin, found)?;
        add_broken(alloc, View::Cdl, &self.cdl, pin, found)?;
        add_broken(alloc, View::Lef, &self.lef, pin, found)?;
        Ok(())
    }
}

fn add_broken(
    alloc: Global,
    view: View,
    lookup: &Option<PinLookup<'_>>,
    pin: &Pin,
    found: &mut Vec<Finding>,
) -> Result<(), NoMemory>
    ensures { OnOk result (found.new.items ≡ found.old.items ++ looked.at_view view lookup.now pin.now) }
{
    match lookup {
        None => Ok(()),
        Some(lookup) => {
            let said = lookup.get(pin.name.as_bytes());
            add_code(
                alloc,
                broken(view, pin.role(), said),
                &pin.name,
                view,
                found,
            )
        }
    }
}

fn add_code(
    alloc: Global,
    code: Option<Code>,
    name: &Text,
    view: View,
    found: &mut Vec<Finding>,
) -> Result<(), NoMemory>
    ensures { OnOk result (found.new.items ≡ found.old.items ++ spec.findings_at view name.now code) }
{
    match code {
        None => Ok(()),
        Some(code) => push(found, code, Some(name.copied(alloc)?), view),
    }
}

// The findings at one of Liberty's pins, unless a pin before it has its name.
fn add_pin(
    alloc: Global,
    seen: &mut Names,
    pin: &Pin,
    lookups: &Lookups<'_>,
    found: &mut Vec<Finding>,
) -> Result<(), NoMemory>
    ensures seen { OnOk result (seen.new ≡ seen.old ++ pin.now.name ∷ []) }
    ensures found { OnOk result (found.new.items ≡ found.old.items ++ looked.unless_seen seen.old lookups.now pin.now) }
{
    if !seen.contains(pin.name.as_bytes()) {
        lookups.check(alloc, pin, found)?;
    }
    seen.push(alloc, pin.name.as_bytes())
}

fn add_liberty(
    alloc: Global,
    pins: &[Pin],
    lookups: &Lookups<'_>,
    found: &mut Vec<Finding>,
) -> Result<Names, NoMemory>
    ensures seen { IfOk result (λ seen. seen ≡ map name_of pins.now) }
    ensures found { OnOk result (found.new.items ≡ found.old.items ++ looked.at_first_pins lookups.now pins.now) }
{
    let mut seen = Names::new(alloc);
    for pin in pins {
        add_pin(alloc, &mut seen, pin, lookups, found)?;
    }
    Ok(seen)
}

fn other_pins(alloc: Global, views: &FourViews, liberty: &Names) -> Result<PinIndex, NoMemory>
    ensures { IfOk result (IsIndexOf (looked.strangers liberty.now (spec.viewed_pins views.now))) }
{
    let mut others = PinIndex::new(alloc);
    add_strangers(alloc, &views.verilog, liberty, &mut others)?;
    add_strangers(alloc, &views.cdl, liberty, &mut others)?;
    add_strangers(alloc, &views.lef, liberty, &mut others)?;
    Ok(others)
}

fn add_strangers(
    alloc: Global,
    table: &Option<PinTable>,
    liberty: &Names,
    others: &mut PinIndex,
) -> Result<(), NoMemory>
    ensures { OnOk result (looked.Joins (looked.strangers liberty.now (spec.pins_of table.now)) others.old others.new) }
{
    match table {
        None => Ok(()),
        Some(table) => add_strange_pins(alloc, table.pins.as_slice(), liberty, others),
    }
}

fn add_strange_pins(
    alloc: Global,
    pins: &[Pin],
    liberty: &Names,
    others: &mut PinIndex,
) -> Result<(), NoMemory>
    ensures { OnOk result (looked.Joins (looked.strangers liberty.now pins.now) others.old others.new) }
{
    for pin in pins {
        add_stranger(alloc, pin, liberty, others)?;
    }
    Ok(())
}

fn add_stranger(
    alloc: Global,
    pin: &Pin,
    liberty: &Names,
    others: &mut PinIndex,
) -> Result<(), NoMemory>
    ensures { OnOk result (looked.Joins (looked.strangers liberty.now (pin.now ∷ [])) others.old others.new) }
{
    if !liberty.contains(pin.name.as_bytes()) {
        let _ = others.add(alloc, pin)?;
    }
    Ok(())
}

fn add_others(alloc: Global, others: &PinIndex, found: &mut Vec<Finding>) -> Result<(), NoMemory>
    ensures found { OnOk result (found.new.items ≡ found.old.items ++ map spec.lacking (looked.names_in others.now)) }
    ensures sorted { OnOk result (IsStrictlySortedBy (slice_cmp nat_cmp) (looked.names_in others.now)) }
{
    for name in others.roles.keys() {
        push(
            found,
            Code::P2,
            Some(Text::from_bytes(alloc, name)?),
            View::Liberty,
        )?;
    }
    Ok(())
}
