//! The row of a table that covers a state of its cell.
ghost use Rattle.std.specs.Prelude.{◌≡◌, ◌↔◌, IsTrue};
ghost use Rattle.tern_core.specs.Order.{AreAtMost};
ghost use Rattle.correspondence.specs.Cover.{Covers, IsFirstCover};

use table_source::{Row, Table};
use tern_core::{Tern, at_most};

fn are_equal(left: &[Tern], right: &[Tern]) -> bool
    ensures { IsTrue result ↔ (left.now ≡ right.now) }
{
    left == right
}

fn are_at_most(left: &[Tern], right: &[Tern]) -> bool
    ensures { IsTrue result ↔ AreAtMost left.now right.now }
{
    if left.len() != right.len() {
        return false;
    }
    for i in 0..left.len() {
        if !at_most(left[i], right[i]) {
            return false;
        }
    }
    true
}

/// Whether the row covers these values.
pub(crate) fn covers(
    row: &Row,
    pins: &[Tern],
    liberty: &[Tern],
    udps: &[Tern],
    nodes: &[Tern],
) -> bool
    ensures { IsTrue result ↔ Covers row.now pins.now liberty.now udps.now nodes.now }
{
    are_equal(row.pins.as_slice(), pins)
        && are_equal(row.liberty.as_slice(), liberty)
        && are_equal(row.udps.as_slice(), udps)
        && are_at_most(row.nodes.as_slice(), nodes)
}

/// The place of the table's first row that covers these values of pins, of Liberty's state, of primitives and of nodes,
/// counted from 0. A row of other lengths covers nothing.
///
/// It looks at one row after the other; `RowIndex` finds the same row among many faster.
pub fn cover(
    table: &Table,
    pins: &[Tern],
    liberty: &[Tern],
    udps: &[Tern],
    nodes: &[Tern],
) -> Option<usize>
    ensures { IsFirstCover table.now.rows pins.now liberty.now udps.now nodes.now result }
{
    let rows = table.rows.as_slice();
    for i in 0..rows.len() {
        if covers(&rows[i], pins, liberty, udps, nodes) {
            return Some(i);
        }
    }
    None
}
