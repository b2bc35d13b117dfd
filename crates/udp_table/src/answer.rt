ghost use Rattle.std.specs.Prelude.{◌≡◌, ◌<◌, length};
ghost use Rattle.udp_table.specs.Rows.{case_of, level_row_matches, edge_row_matches};
ghost use Rattle.udp_table.specs.Answers.{level_answer, edge_answer, answer_of};

use crate::row::{EdgeRow, LevelRow, Row};
use crate::symbol::cover;
use tern_core::Tern;

impl LevelRow {
    pub(crate) fn matches(&self, levels: &[Tern], state: Tern) -> bool
        ensures { result ≡ level_row_matches self.now levels.now state }
    {
        cover(self.levels.as_slice(), levels) && self.state.covers(state)
    }
}

impl EdgeRow {
    pub(crate) fn matches(&self, input: usize, old: Tern, levels: &[Tern], state: Tern) -> bool
        requires { input < length levels.now }
        ensures { result ≡ edge_row_matches self.now (case_of input old levels.now state) }
    {
        self.before.len() == input
            && self.edge.covers(old, levels[input])
            && cover(self.before.as_slice(), &levels[..input])
            && cover(self.after.as_slice(), &levels[input + 1..])
            && self.state.covers(state)
    }
}

/// What the first level row that matches gives.
pub(crate) fn by_level(rows: &[Row], levels: &[Tern], state: Tern) -> Option<Tern>
    ensures { result ≡ level_answer rows.now levels.now state }
{
    for row in rows {
        if let Row::Level(row) = row
            && row.matches(levels, state)
        {
            return Some(row.next.value(state));
        }
    }
    None
}

/// What the first edge row that matches gives.
fn by_edge(rows: &[Row], input: usize, old: Tern, levels: &[Tern], state: Tern) -> Option<Tern>
    requires { input < length levels.now }
    ensures { result ≡ edge_answer rows.now (case_of input old levels.now state) }
{
    for row in rows {
        if let Row::Edge(row) = row
            && row.matches(input, old, levels, state)
        {
            return Some(row.next.value(state));
        }
    }
    None
}

/// The new state of a sequential primitive with these rows after a change of one input.
pub(crate) fn answer(rows: &[Row], input: usize, old: Tern, levels: &[Tern], state: Tern) -> Tern
    requires { input < length levels.now }
    ensures { result ≡ answer_of rows.now (case_of input old levels.now state) }
{
    by_level(rows, levels, state)
        .or_else(|| by_edge(rows, input, old, levels, state))
        .unwrap_or(Tern::Unknown)
}
