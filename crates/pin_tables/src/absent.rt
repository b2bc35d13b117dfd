//! Findings of views that a cell lacks.
ghost use Rattle.std.specs.Prelude.{◌≡◌, ◌++◌, OnOk};
ghost use Rattle.pin_tables.specs.Findings as spec;

use crate::table::PinTable;
use text_scan::{NoMemory, Text};
use verdict_text::{Code, Finding, View};

pub(crate) fn push(
    found: &mut Vec<Finding>,
    code: Code,
    pin: Option<Text>,
    view: View,
) -> Result<(), NoMemory>
    ensures { OnOk result (found.new.items ≡ found.old.items ++ spec.only (spec.finding code pin view)) }
{
    found.push(Finding {
        code,
        pin,
        view,
        mismatch: None,
        waiver: None,
    })?;
    Ok(())
}

/// The finding of a view that has no such cell.
pub(crate) fn add_absent(
    view: View,
    table: &Option<PinTable>,
    found: &mut Vec<Finding>,
) -> Result<(), NoMemory>
    ensures { OnOk result (found.new.items ≡ found.old.items ++ spec.absent view table.now) }
{
    match table {
        None => push(found, Code::P1, None, view),
        Some(_) => Ok(()),
    }
}
