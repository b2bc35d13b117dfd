//! The public call.
ghost use Rattle.csv_records.specs.Records.{records_of};
ghost use Rattle.tech_reader.specs.Tech.{told};
ghost use Rattle.std.specs.Prelude.{IfOk};
ghost use Rattle.file_rules.specs.Told.{Agrees};
ghost use Rattle.circuit.specs.Tech.{IsTech};

use crate::parts::Parts;
use circuit::Tech;
use csv_records::read_records;
use std::alloc::Global;
use text_scan::{FileRefusal, Limits};

/// Reads the text of a technology: comma-separated values, four fields a record, within these limits.
///
/// The answer is what the text's records tell: the technology where each of them is right, else the first thing for
/// which one is refused. Its line is the record's number and its column the field's, both from 1; column 0 tells of
/// another number of fields than four. Only want of memory is not told by the definition.
pub fn read_tech(alloc: Global, text: &[u8], limits: &Limits) -> Result<Tech, FileRefusal>
    ensures told { Agrees result (told limits.now (records_of text.now)) }
    ensures kept { IfOk result (λ tech. IsTech limits.now tech) }
{
    let parts = read_records(alloc, text, limits, Parts::new(alloc))?;
    Ok(parts.into_tech())
}
