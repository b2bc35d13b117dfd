//! Primitives by their names.
ghost use Rattle.std.specs.Prelude.{◌≡◌, IfOk, List, map, Option, Some, None};

use name_index::Names;
use std::alloc::Global;
use std::marker::Model;
use text_scan::{Items, NoMemory};
use udp_table::Udp;

/// The user-defined primitives of a source text, found by their names. Of a name that stands twice the first counts.
#[derive(Drop)]
pub struct Primitives {
    names: Names,
    tables: Items<Udp>,
}

impl Model for Primitives {
    ghost use Rattle.std.specs.Prelude.{◌≡◌, List, map};
    ghost use Rattle.udp_table.specs.Table.{Table};

    ghost Value = { List Table };

    ghost view = { λ p. p.tables };

    ghost invariant = { λ p. p.names ≡ map (λ t. t.name) p.tables };
}

fn names_of(alloc: Global, tables: &[Udp]) -> Result<Names, NoMemory>
    ensures { IfOk result (λ names. names ≡ map (λ t. t.name) tables.now) }
{
    let mut names = Names::new(alloc);
    for table in tables {
        names.push(alloc, table.name())?;
    }
    Ok(names)
}

impl Primitives {
    ghost use Rattle.std.specs.Prelude.{◌≡◌, IfOk, map};
    ghost use Rattle.module_net.specs.Elements.{table_named};
    ghost use Rattle.std.specs.Option.{option_copied};

    pub fn new(alloc: Global, tables: Items<Udp>) -> Result<Primitives, NoMemory>
        ensures { IfOk result (λ primitives. primitives ≡ tables) }
    {
        let names = names_of(alloc, tables.as_slice())?;
        Ok(Primitives { names, tables })
    }

    /// The primitive of this name.
    #[tactic(auto, using(crate::proofs::Values::no_table, crate::proofs::Values::first_table))]
    pub fn get(&self, name: &[u8]) -> Option<&Udp>
        ensures { option_copied result ≡ table_named self.now name.now }
    {
        let place = self.names.place_of(name)?;
        self.tables.as_slice().get(place)
    }
}
