//! Reads a Liberty library (Liberty User Guide): its cells with what is kept of their pins and state groups, each
//! whole or with the first thing in it that isn't read, exact on every byte string. `docs/FORMATS-liberty.md` has the
//! grammar in words.
//!
//! The statements of the text are read first (`liberty_statements`); the cells are made of them (`cell`, `making`).
#![tactic(auto)]

mod cell;
mod making;
mod public_call;

pub use liberty_source::{
    Both, CellPart, FfText, LatchText, LibertyCell, LibertyPin, Library, RowsText, StateGroup,
};
pub use public_call::read_library;

#[cfg(test)]
mod tests;
