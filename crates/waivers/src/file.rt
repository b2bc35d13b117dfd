//! The public call.
ghost use Rattle.std.specs.Prelude.{IfOk};
ghost use Rattle.csv_records.specs.Records.{records_of};
ghost use Rattle.file_rules.specs.Told.{Agrees};
ghost use Rattle.waiver_source.specs.Waivers.{AreWaivers};
ghost use Rattle.waivers.specs.File.{told};

use crate::rows::Rows;
use csv_records::read_records;
use std::alloc::Global;
use text_scan::{FileRefusal, Limits};
use waiver_source::Waivers;

/// Reads the text of a house's waivers: comma-separated values, five fields a record, within these limits.
///
/// The answer is what the text's records tell: the waivers where each of them is right, else the first thing for which
/// one is refused. Its line is the record's number and its column the field's, both from 1; column 0 tells of another
/// number of fields than five. Only want of memory is not told by the definition.
pub fn read_waivers(alloc: Global, text: &[u8], limits: &Limits) -> Result<Waivers, FileRefusal>
    ensures told { Agrees result (told limits.now (records_of text.now)) }
    ensures kept { IfOk result (λ waivers. AreWaivers limits.now waivers) }
{
    let read = read_records(alloc, text, limits, Rows::new(alloc))?;
    Ok(Waivers::of(alloc, read.rows)?)
}
