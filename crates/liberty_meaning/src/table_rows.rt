//! From the group `statetable` to its table.
ghost use Rattle.std.specs.Prelude.{◌≡◌, length};
ghost use Rattle.liberty_meaning.specs.TableMeaning as spec;

use crate::outputs::told;
use crate::refusal::MeaningRefusal;
use crate::table::{Row, push_rows};
use crate::table_text::RowWords;
use liberty_function::{Scope, Source};
use std::alloc::Global;
use text_scan::{Items, Text};

/// The rows of all texts, each of so many input and node words.
pub(crate) fn made_rows(
    alloc: Global,
    inputs: usize,
    nodes: usize,
    texts: &[RowWords],
) -> Result<Items<Row>, MeaningRefusal>
    ensures { spec.IsRowsAnswer inputs nodes texts.now result }
{
    let mut rows = Items::new(alloc);
    for (i, text) in texts.iter().enumerate() {
        if !push_rows(alloc, &mut rows, inputs, nodes, text.words.as_slice())? {
            return Err(MeaningRefusal::BadStateRow(told(i + 1)));
        }
    }
    Ok(rows)
}

/// Where the columns take their values from, among the input pins.
pub(crate) fn columns_of(
    alloc: Global,
    inputs: &Scope,
    names: &[Text],
) -> Result<Items<Source>, MeaningRefusal>
    ensures { spec.IsColumnsAnswer inputs.now names.now result }
{
    let mut columns = Items::new(alloc);
    for name in names {
        match inputs.find(name.as_bytes()) {
            Some(source) => columns.push(source)?,
            None => return Err(MeaningRefusal::UnknownName(name.copied(alloc)?)),
        }
    }
    Ok(columns)
}
