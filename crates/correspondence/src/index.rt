//! An index of a table's rows.
use crate::entry::Entry;

/// The rows of a table in the order of their first three words. Made once a table, in time n log n of its rows.
#[derive(Drop)]
pub struct RowIndex {
    pub(crate) entries: Vec<Entry>,
}
