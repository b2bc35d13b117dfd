ghost use Rattle.std.specs.Prelude.{◌≡◌, IfOk};

use crate::symbol::{EdgeSymbol, LevelSymbol, NextState};
use std::alloc::Global;
use text_scan::{Items, NoMemory};

/// A row of a table.
#[derive(Debug, Drop)]
pub enum Row {
    Level(LevelRow),
    Edge(EdgeRow),
}

/// A row without an edge. Of a combinational primitive it covers each state and gives a value.
#[derive(Debug, Drop)]
pub struct LevelRow {
    pub levels: Items<LevelSymbol>,
    pub state: LevelSymbol,
    pub next: NextState,
}

/// A row of a sequential primitive with an edge at one input.
#[derive(Debug, Drop)]
pub struct EdgeRow {
    /// The symbols of the inputs before the edge's.
    pub before: Items<LevelSymbol>,
    pub edge: EdgeSymbol,
    /// The symbols of the inputs after the edge's.
    pub after: Items<LevelSymbol>,
    pub state: LevelSymbol,
    pub next: NextState,
}

impl LevelRow {
    fn copied(&self, alloc: Global) -> Result<LevelRow, NoMemory>
        ensures { IfOk result (λ row. row ≡ self.now) }
    {
        Ok(LevelRow {
            levels: Items::from_vec(self.levels.as_slice().to_vec(alloc)?),
            state: self.state,
            next: self.next,
        })
    }
}

impl EdgeRow {
    fn copied(&self, alloc: Global) -> Result<EdgeRow, NoMemory>
        ensures { IfOk result (λ row. row ≡ self.now) }
    {
        Ok(EdgeRow {
            before: Items::from_vec(self.before.as_slice().to_vec(alloc)?),
            edge: self.edge,
            after: Items::from_vec(self.after.as_slice().to_vec(alloc)?),
            state: self.state,
            next: self.next,
        })
    }
}

impl Row {
    fn copied(&self, alloc: Global) -> Result<Row, NoMemory>
        ensures { IfOk result (λ row. row ≡ self.now) }
    {
        match self {
            Row::Level(row) => Ok(Row::Level(row.copied(alloc)?)),
            Row::Edge(row) => Ok(Row::Edge(row.copied(alloc)?)),
        }
    }
}

pub(crate) fn copied_rows(alloc: Global, rows: &[Row]) -> Result<Items<Row>, NoMemory>
    ensures { IfOk result (λ copies. copies ≡ rows.now) }
{
    let mut copies = Items::new(alloc);
    for row in rows {
        copies.push(row.copied(alloc)?)?;
    }
    Ok(copies)
}
