//! What was read of a technology so far.
ghost use Rattle.std.specs.Prelude.{◌≡◌, [], ℕ, List, Some, OnOk};
ghost use Rattle.tech_reader.specs.Held.{Holds, Kept};
ghost use Rattle.tech_reader.specs.Row.{IsOf, row_of};
ghost use Rattle.tech_reader.specs.Tech as tech;

use crate::fields::{Fields, Kind};
use circuit::{ModelCard, Size, Supply, Tech};
use csv::ByteRecord;
use csv_records::Entries;
use name_index::Names;
use std::alloc::Global;
use text_scan::{FileRefusal, Items, Limits, NoMemory};

/// The parts of a technology in the order of their records.
#[derive(Drop)]
pub struct Parts {
    models: Items<ModelCard>,
    sizes: Items<Size>,
    supplies: Items<Supply>,
    // the key of each record
    names: Names,
}

impl Parts {
    pub fn new(alloc: Global) -> Parts
        ensures { Holds result [] }
    {
        Parts {
            models: Items::new(alloc),
            sizes: Items::new(alloc),
            supplies: Items::new(alloc),
            names: Names::new(alloc),
        }
    }

    /// The technology whose parts these are.
    pub fn into_tech(self) -> Tech
        ensures { (rows : List (List (List ℕ))) → Holds self rows → result ≡ tech.tech_of rows }
    {
        let Parts {
            models,
            sizes,
            supplies,
            names: _,
        } = self;
        Tech {
            models,
            sizes,
            supplies,
        }
    }

    // Keeps what the fields tell, and their key.
    fn keep(
        &mut self,
        alloc: Global,
        kind: Kind,
        fields: &Fields<'_>,
        key: &[u8],
    ) -> Result<(), NoMemory>
        requires { IsOf kind fields.now }
        ensures { OnOk result (Kept self.old self.new (row_of fields.now) key.now) }
    {
        self.names.push(alloc, key)?;
        match kind {
            Kind::Model => self.models.push(fields.model(alloc)?),
            Kind::Size => self.sizes.push(fields.size(alloc)?),
            Kind::Supply => self.supplies.push(fields.supply(alloc)?),
        }
    }
}

impl Entries for Parts {
    ghost use Rattle.tech_reader.specs.Held.{Holds};
    ghost use Rattle.tech_reader.specs.Tech.{refuses};

    ghost holds = { Holds };

    ghost refuses = { refuses };

    fn enter(
        &mut self,
        alloc: Global,
        limits: &Limits,
        line: u32,
        row: &ByteRecord,
    ) -> Result<(), FileRefusal> {
        let Some(fields) = Fields::of(row) else {
            return Err(FileRefusal::Syntax { line, column: 0 });
        };
        let kind = fields.check(limits, line)?;
        let key = fields.key(alloc, kind)?;
        if self.names.contains(&key) {
            return Err(fields.double_name(alloc, kind, line));
        }
        self.keep(alloc, kind, &fields, &key)?;
        Ok(())
    }
}
