//! What is read of a table.
use table_source::{Row, Table};
use text_scan::{Items, Text};

/// The names of a line, and the line's number; 0 without the line.
#[derive(Debug, Drop)]
pub struct NamesLine {
    pub names: Items<Text>,
    pub line: u32,
}

/// A table so far.
#[derive(Debug, Drop)]
pub struct OpenTable {
    pub cell: Text,
    pub line: u32,
    pub pins: NamesLine,
    pub xpins: NamesLine,
    pub state: NamesLine,
    pub udps: NamesLine,
    pub nodes: NamesLine,
    pub rows: Items<Row>,
}

impl OpenTable {
    ghost use Rattle.std.specs.Prelude.{◌≡◌};
    ghost use Rattle.correspondence.specs.Parts.{made};

    /// The table that was read.
    pub fn made(self) -> Table
        ensures { result ≡ made self }
    {
        let OpenTable {
            cell,
            line,
            pins,
            xpins,
            state,
            udps,
            nodes,
            rows,
        } = self;
        Table {
            cell,
            line,
            lines: [pins.line, state.line, udps.line, nodes.line],
            pins: pins.names,
            xpins: xpins.names,
            xline: xpins.line,
            state: state.names,
            udps: udps.names,
            nodes: nodes.names,
            rows,
        }
    }
}
