//! What is read of a file.
use crate::kinds::LineKind;
use crate::table::OpenTable;
use name_index::Names;
use table_source::Table;
use text_scan::Items;

/// The cells' names so far, the tables that have ended, and the one that is open.
#[derive(Drop)]
pub struct Parts {
    pub names: Names,
    pub tables: Items<Table>,
    pub current: OpenTable,
}

/// A reader between two lines: what is read, and the kind of the last line; at first that of a table's end.
#[derive(Drop)]
pub struct Reader {
    pub last: LineKind,
    pub parts: Parts,
}
