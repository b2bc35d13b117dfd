ghost use Rattle.std.specs.Prelude.{◌≡◌, ◌<◌, length, All, MatchOption};
ghost use Rattle.udp_table.specs.Letters.{Fits};
ghost use Rattle.udp_table.specs.Conflicts.{HasNoConflict, IsFirstConflict};
ghost use Rattle.udp_table.specs.Overlaps.{overlap, overlap_from, edges_overlap, disagree, all_overlap, level_rows_conflict, edge_rows_conflict, rows_conflict, FindsPartner};

use crate::row::{EdgeRow, LevelRow, Row};
use crate::symbol::{EdgeSymbol, LevelSymbol, NextState, differ};
use tern_core::Tern;

const VALUES: [Tern; 3] = [Tern::Zero, Tern::One, Tern::Unknown];

impl LevelSymbol {
    /// Whether both cover some value.
    fn overlaps(self, other: LevelSymbol) -> bool
        ensures { result ≡ overlap self other }
    {
        VALUES
            .iter()
            .any(|value| self.covers(*value) && other.covers(*value))
    }
}

impl EdgeSymbol {
    fn overlaps_from(self, other: EdgeSymbol, old: Tern) -> bool
        ensures { result ≡ overlap_from self other old }
    {
        VALUES
            .iter()
            .any(|new| self.covers(old, *new) && other.covers(old, *new))
    }

    /// Whether both cover some change.
    fn overlaps(self, other: EdgeSymbol) -> bool
        ensures { result ≡ edges_overlap self other }
    {
        VALUES.iter().any(|old| self.overlaps_from(other, *old))
    }
}

/// Whether two rows with these symbols of the state and these values differ in some state.
fn disagree(
    state: LevelSymbol,
    next: NextState,
    other_state: LevelSymbol,
    other_next: NextState,
) -> bool
    ensures { result ≡ disagree state next other_state other_next }
{
    VALUES.iter().any(|value| {
        state.covers(*value)
            && other_state.covers(*value)
            && differ(next.value(*value), other_next.value(*value))
    })
}

/// Whether the symbols of each place overlap, in lists of one length.
#[tactic(auto, using(crate::proofs::Overlapping::loops))]
fn overlap(symbols: &[LevelSymbol], others: &[LevelSymbol]) -> bool
    ensures { result ≡ all_overlap symbols.now others.now }
{
    if symbols.len() != others.len() {
        return false;
    }
    for (place, symbol) in symbols.iter().enumerate() {
        if !symbol.overlaps(others[place]) {
            return false;
        }
    }
    true
}

impl LevelRow {
    fn conflicts(&self, other: &LevelRow) -> bool
        ensures { result ≡ level_rows_conflict self.now other.now }
    {
        overlap(self.levels.as_slice(), other.levels.as_slice())
            && disagree(self.state, self.next, other.state, other.next)
    }
}

impl EdgeRow {
    fn conflicts(&self, other: &EdgeRow) -> bool
        ensures { result ≡ edge_rows_conflict self.now other.now }
    {
        overlap(self.before.as_slice(), other.before.as_slice())
            && self.edge.overlaps(other.edge)
            && overlap(self.after.as_slice(), other.after.as_slice())
            && disagree(self.state, self.next, other.state, other.next)
    }
}

impl Row {
    fn conflicts(&self, other: &Row) -> bool
        ensures { result ≡ rows_conflict self.now other.now }
    {
        match (self, other) {
            (Row::Level(row), Row::Level(other)) => row.conflicts(other),
            (Row::Edge(row), Row::Edge(other)) => row.conflicts(other),
            _ => false,
        }
    }
}

/// The first row behind this place that conflicts with the row there.
fn conflict_behind(rows: &[Row], place: usize) -> Option<usize>
    requires { place < length rows.now }
    ensures { FindsPartner rows.now place result }
{
    let row = &rows[place];
    for other in place + 1..rows.len() {
        if row.conflicts(&rows[other]) {
            return Some(other);
        }
    }
    None
}

/// The first two rows that conflict, by the first and then by the second.
pub(crate) fn first_conflict(
    sequential: bool,
    inputs: usize,
    rows: &[Row],
) -> Option<(usize, usize)>
    requires { All (Fits sequential inputs) rows.now }
    ensures { MatchOption result (HasNoConflict sequential inputs rows.now)
        (λ pair. IsFirstConflict sequential inputs rows.now pair.0 pair.1) }
{
    if sequential && inputs == 0 {
        return None;
    }
    for place in 0..rows.len() {
        if let Some(other) = conflict_behind(rows, place) {
            return Some((place, other));
        }
    }
    None
}
