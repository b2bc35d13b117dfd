//! The user-defined primitives of a source text, each built once.
ghost use Rattle.std.specs.Prelude.{◌≡◌, ◌++◌, ◌∷◌, [], IfOk, OnOk, map};
ghost use Rattle.std.specs.Option.{option_copied};
ghost use Rattle.cell_compare.specs.Parts as spec;

use crate::reasons::{Flaw, flaw_of_refusal};
use module_net::{Primitives, element_word};
use name_index::Names;
use std::alloc::Global;
use text_scan::{Items, NoMemory, Text};
use udp_table::{Udp, build};
use verdict_text::Reason;
use verilog_source::{Element, UdpPart};

/// A primitive's table, or why it has none.
#[derive(Drop)]
enum Made {
    Built(Udp),
    Flawed(Flaw),
}

fn table_or_flaw(alloc: Global, part: &UdpPart) -> Result<Made, NoMemory>
    ensures { IfOk result (spec.IsMade part.now) }
{
    match part {
        UdpPart::Refused {
            construct,
            line,
            ..
        } => Ok(Made::Flawed(Flaw::NotRead {
            construct: construct.copied(alloc)?,
            line: *line,
        })),
        UdpPart::Whole(text) => match build(alloc, text) {
            Ok(table) => Ok(Made::Built(table)),
            Err(refusal) => Ok(Made::Flawed(flaw_of_refusal(refusal)?)),
        },
    }
}

fn add(made: Made, flaws: &mut Items<Option<Flaw>>, tables: &mut Items<Udp>) -> Result<(), NoMemory>
    ensures flaws { OnOk result (flaws.new ≡ flaws.old ++ spec.flaw_of made ∷ []) }
    ensures tables { OnOk result (tables.new ≡ tables.old ++ spec.table_of made) }
{
    match made {
        Made::Built(table) => {
            tables.push(table)?;
            flaws.push(None)
        }
        Made::Flawed(flaw) => flaws.push(Some(flaw)),
    }
}

/// The tables, and beside each primitive the flaw for which it has none.
#[derive(Drop)]
struct Tables {
    flaws: Items<Option<Flaw>>,
    tables: Items<Udp>,
}

fn tables_of(alloc: Global, parts: &[UdpPart]) -> Result<Tables, NoMemory>
    ensures { IfOk result (λ made. spec.AreMade parts.now made.flaws made.tables) }
{
    let mut flaws = Items::new(alloc);
    let mut tables = Items::new(alloc);
    for part in parts {
        add(table_or_flaw(alloc, part)?, &mut flaws, &mut tables)?;
    }
    Ok(Tables { flaws, tables })
}

fn udp_name(part: &UdpPart) -> &Text
    ensures { result.now ≡ spec.udp_name part.now }
{
    match part {
        UdpPart::Whole(text) => &text.name,
        UdpPart::Refused { name, .. } => name,
    }
}

fn udp_names(alloc: Global, parts: &[UdpPart]) -> Result<Names, NoMemory>
    ensures { IfOk result (λ names. names ≡ map spec.udp_name parts.now) }
{
    let mut names = Names::new(alloc);
    for part in parts {
        names.push(alloc, udp_name(part).as_bytes())?;
    }
    Ok(names)
}

/// The primitives of a source text by name.
#[derive(Drop)]
pub(crate) struct PrimitiveTables {
    names: Names,
    flaws: Items<Option<Flaw>>,
    pub tables: Primitives,
}

impl PrimitiveTables {
    pub fn new(alloc: Global, parts: &[UdpPart]) -> Result<PrimitiveTables, NoMemory>
        ensures { IfOk result (spec.IsPrimitivesOf parts.now) }
    {
        let names = udp_names(alloc, parts)?;
        let Tables { flaws, tables } = tables_of(alloc, parts)?;
        Ok(PrimitiveTables {
            names,
            flaws,
            tables: Primitives::new(alloc, tables)?,
        })
    }

    fn flaw_at(&self, place: Option<usize>) -> Option<&Flaw>
        ensures { option_copied result ≡ spec.flaw_at self.now.flaws place }
    {
        match self.flaws.as_slice().get(place?) {
            Some(Some(flaw)) => Some(flaw),
            _ => None,
        }
    }

    fn element_flaw(&self, element: &Element) -> Option<&Flaw>
        ensures { option_copied result ≡ spec.element_flaw self.now.names self.now.flaws element.now }
    {
        if element_word(element).is_some() {
            None
        } else {
            self.flaw_at(self.names.place_of(element.kind.as_bytes()))
        }
    }

    /// Why the first of the elements is refused whose primitive has a flaw.
    pub fn first_reason(
        &self,
        alloc: Global,
        elements: &[Element],
    ) -> Result<Option<Reason>, NoMemory>
        ensures { IfOk result (λ reason. reason ≡ spec.first_reason self.now.names self.now.flaws elements.now) }
    {
        for element in elements {
            if let Some(flaw) = self.element_flaw(element) {
                return Ok(Some(flaw.reason(alloc, &element.kind)?));
            }
        }
        Ok(None)
    }
}
