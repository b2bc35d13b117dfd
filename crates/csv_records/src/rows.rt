//! The records of a text, one after the other.
ghost use Rattle.std.specs.Prelude.{◌≡◌, ℕ, List, MatchResult};
ghost use Rattle.csv.specs.Records.{fields_of};
ghost use Rattle.csv_records.specs.Records.{Gave, HasLeft, records_of};
ghost use Rattle.text_scan.specs.declared.refusal.FileRefusal.TheVariants as refusals;

use csv::{ByteRecord, Reader, ReaderBuilder};
use std::alloc::Global;
use text_scan::FileRefusal;

/// A reader of records of any number of fields, none of which is a header.
pub fn open(alloc: Global, text: &[u8]) -> Reader<&[u8]>
    ensures { HasLeft result (records_of text.now) }
{
    ReaderBuilder::new()
        .has_headers(false)
        .flexible(true)
        .from_reader(alloc, text)
}

/// Puts the fields of the next record into the row; false where there is none.
pub fn next_row(reader: &mut Reader<&[u8]>, row: &mut ByteRecord) -> Result<bool, FileRefusal>
    ensures { (rows : List (List (List ℕ))) → HasLeft reader.old rows → MatchResult result (λ found. Gave found (fields_of row.new) rows reader.new) (λ e. e ≡ refusals.NoMemory) }
{
    // A slice of bytes doesn't fail, and records may differ in length: memory alone can be refused.
    let Ok(found) = reader.read_byte_record(row) else {
        return Err(FileRefusal::NoMemory);
    };
    Ok(found)
}
