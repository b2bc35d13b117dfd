//! The waivers of the records that were read so far.
ghost use Rattle.std.specs.Prelude.{◌≡◌, []};
ghost use Rattle.waivers.specs.Row.{Holds};

use crate::fields::Fields;
use csv::ByteRecord;
use csv_records::Entries;
use std::alloc::Global;
use text_scan::{FileRefusal, Items, Limits};
use waiver_source::Waiver;

/// Waivers in the order of their records.
#[derive(Drop)]
pub struct Rows {
    pub rows: Items<Waiver>,
}

impl Rows {
    pub fn new(alloc: Global) -> Rows
        ensures { Holds result [] }
    {
        Rows {
            rows: Items::new(alloc),
        }
    }
}

impl Entries for Rows {
    ghost use Rattle.waivers.specs.File.{refuses};
    ghost use Rattle.waivers.specs.Row.{Holds};

    ghost holds = { Holds };

    ghost refuses = { refuses };

    fn enter(
        &mut self,
        alloc: Global,
        limits: &Limits,
        line: u32,
        row: &ByteRecord,
    ) -> Result<(), FileRefusal> {
        let Some(fields) = Fields::of(row) else {
            return Err(FileRefusal::Syntax { line, column: 0 });
        };
        let terms = fields.check(limits, line)?;
        let waiver = fields.waiver(alloc, terms)?;
        self.rows.push(waiver)?;
        Ok(())
    }
}
