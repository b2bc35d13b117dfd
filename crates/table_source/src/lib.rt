//! Correspondence tables as plain data: how the state of a sequential cell stands in each of its views. What a reader of
//! table files gives, and what a check of cells asks.
#![tactic(auto)]

use tern_core::Tern;
use text_scan::{Items, Text};

/// A file of tables, in its order.
#[derive(Debug, Drop)]
pub struct Tables {
    pub tables: Items<Table>,
}

/// The table of one cell. Lines count from 1 and are told as 4,294,967,295 where they are greater.
#[derive(Debug, Drop)]
pub struct Table {
    pub cell: Text,
    /// Of the word `table`.
    pub line: u32,
    /// Of the words `pins`, `state`, `udps` and `nodes`.
    pub lines: [u32; 4],
    /// The cell's input pins.
    pub pins: Items<Text>,
    /// The pins that may be X; none without a line of them.
    pub xpins: Items<Text>,
    /// Of the word `xpins`; 0 without it.
    pub xline: u32,
    /// Liberty's state variables.
    pub state: Items<Text>,
    /// The nets that sequential primitives of the Verilog module drive.
    pub udps: Items<Text>,
    /// Storage nodes of the transistor network.
    pub nodes: Items<Text>,
    pub rows: Items<Row>,
}

/// One state of the cell in each view. Each word has a value for each name of the list of its kind, where the table fits
/// its cell; the file may say more or fewer.
#[derive(Debug, Drop)]
pub struct Row {
    pub line: u32,
    pub pins: Items<Tern>,
    /// Of Liberty's state variables.
    pub liberty: Items<Tern>,
    /// Of the nets that sequential primitives drive.
    pub udps: Items<Tern>,
    /// At least these are known of the storage nodes.
    pub nodes: Items<Tern>,
}
