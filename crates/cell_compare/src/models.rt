//! The parts of a Verilog source text by name.
ghost use Rattle.std.specs.Prelude.{◌≡◌, IfOk, map};
ghost use Rattle.cell_compare.specs.Parts as spec;

use crate::primitives::PrimitiveTables;
use name_index::Names;
use std::alloc::Global;
use std::marker::Model;
use text_scan::{NoMemory, Text};
use verilog_source::{ModulePart, Source};

fn module_name(part: &ModulePart) -> &Text
    ensures { result.now ≡ spec.module_name part.now }
{
    match part {
        ModulePart::Whole(module) => &module.name,
        ModulePart::Refused { name, .. } => name,
    }
}

fn module_names(alloc: Global, parts: &[ModulePart]) -> Result<Names, NoMemory>
    ensures { IfOk result (λ names. names ≡ map spec.module_name parts.now) }
{
    let mut names = Names::new(alloc);
    for part in parts {
        names.push(alloc, module_name(part).as_bytes())?;
    }
    Ok(names)
}

/// A Verilog source text whose modules and primitives are found by name. Each primitive's table is built once.
#[derive(Drop)]
pub struct Models {
    source: Source,
    names: Names,
    primitives: PrimitiveTables,
}

impl Model for Models {
    ghost use Rattle.std.specs.Prelude.{◌≡◌, map};
    ghost use Rattle.verilog_source.specs.declared.Source.{Source};
    ghost use Rattle.cell_compare.specs.Parts.{module_name, IsPrimitivesOf};

    ghost Value = { Source };

    ghost view = { λ m. m.source };

    ghost invariant = { λ m. (m.names ≡ map module_name m.source.modules) × IsPrimitivesOf m.source.primitives m.primitives };
}

impl Models {
    ghost use Rattle.std.specs.Prelude.{◌≡◌, IfOk, map};
    ghost use Rattle.std.specs.Option.{option_copied};
    ghost use Rattle.cell_compare.specs.Parts as spec;

    pub fn new(alloc: Global, source: Source) -> Result<Models, NoMemory>
        ensures { IfOk result (λ models. models ≡ source) }
    {
        let primitives = PrimitiveTables::new(alloc, source.primitives.as_slice())?;
        let names = module_names(alloc, source.modules.as_slice())?;
        Ok(Models {
            source,
            names,
            primitives,
        })
    }

    /// The module of this name.
    pub(crate) fn module(&self, name: &[u8]) -> Option<&ModulePart>
        ensures { option_copied result ≡ spec.module_named self.now.modules name.now }
    {
        let place = self.names.place_of(name)?;
        self.source.modules.as_slice().get(place)
    }

    pub(crate) fn primitives(&self) -> &PrimitiveTables
        ensures { spec.IsPrimitivesOf self.now.primitives result.now }
    {
        &self.primitives
    }
}
