//! Fields that are right, and how those are told that are not.
ghost use Rattle.std.specs.Prelude.{◌≡◌};
ghost use Rattle.csv_records.specs.Answers.{refusal_of};
ghost use Rattle.csv_records.specs.Fields as spec;

use file_rules::{is_name, is_too_long, too_many};
use text_scan::{FileRefusal, LimitKind, Limits};

/// Syntax at this field, unless it is right. The line is the record's number and the column the field's, both from 1.
pub fn unless(ok: bool, line: u32, column: u32) -> Result<(), FileRefusal>
    ensures { refusal_of result ≡ spec.unless ok line column }
{
    if ok {
        Ok(())
    } else {
        Err(FileRefusal::Syntax { line, column })
    }
}

/// Whether the field is a name. One of more bytes than the limit allows is too many, whatever bytes it has.
#[tactic(auto, unfolding(crate::specs::Fields::named))]
pub fn check_name(limits: &Limits, line: u32, column: u32, field: &[u8]) -> Result<(), FileRefusal>
    ensures { refusal_of result ≡ spec.named limits.now line column field.now }
{
    if is_too_long(limits, field) {
        return Err(too_many(limits, LimitKind::Name));
    }
    unless(is_name(field), line, column)
}
