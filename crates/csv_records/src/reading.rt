//! Reading records into what they make.
ghost use Rattle.std.specs.Prelude.{◌≡◌, ◌+◌, ℕ, List, [], Option, length};
ghost use Rattle.csv.specs.Records.{fields_of};
ghost use Rattle.csv_records.specs.Answers.{Entered, IsRead, Row};
ghost use Rattle.csv_records.specs.Records.{records_of};
ghost use Rattle.text_scan.specs.declared.limits.Limits.{Limits as LimitsData};
ghost use Rattle.text_scan.specs.declared.refusal.FileRefusal.{FileRefusal as RefusalData};

use crate::rows::{next_row, open};
use csv::ByteRecord;
use file_rules::too_many;
use std::alloc::Global;
use text_scan::{FileRefusal, LimitKind, Limits};

/// What records make that come one after the other.
pub trait Entries {
    /// The records that were entered are these, in their order.
    ghost holds: { Self → List Row → Type 0 };

    /// Why a record is refused after others, if it is.
    ghost refuses: { LimitsData → List Row → Row → Option RefusalData };

    /// Enters the record of this number, from 1, after the others, or tells why it is refused.
    fn enter(
        &mut self,
        alloc: Global,
        limits: &Limits,
        line: u32,
        row: &ByteRecord,
    ) -> Result<(), FileRefusal>
        ensures { (before : List Row) → holds self.old before → line ≡ length before + 1 → Entered holds (refuses limits.now) before (fields_of row.now) self.new result };
}

/// Reads the records of a text, which is read without a header and whose records may have any number of fields, into what
/// they make. More records than the limit allows are too many.
pub fn read_records<M: Entries + Drop>(
    alloc: Global,
    text: &[u8],
    limits: &Limits,
    mut made: M,
) -> Result<M, FileRefusal>
    requires { M.holds made [] }
    ensures { IsRead M.holds limits.now (M.refuses limits.now) (records_of text.now) result }
{
    let mut reader = open(alloc, text);
    let mut row = ByteRecord::new(alloc);
    for count in 0..limits.records {
        let found = next_row(&mut reader, &mut row)?;
        if !found {
            return Ok(made);
        }
        made.enter(alloc, limits, count + 1, &row)?;
    }
    let more = next_row(&mut reader, &mut row)?;
    if more {
        return Err(too_many(limits, LimitKind::Records));
    }
    Ok(made)
}
