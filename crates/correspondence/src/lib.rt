//! Correspondence tables: how the state of a sequential cell stands in each of its views, and which row of a table covers
//! a state.
#![tactic(auto)]

mod actions;
mod covering;
mod entry;
mod index;
mod indexing;
mod kinds;
pub mod laws;
mod lines;
mod names;
mod parts;
mod public_call;
mod reading;
mod steps;
mod table;
mod values;
mod word;

pub use covering::cover;
pub use index::RowIndex;
pub use public_call::read_tables;
pub use table_source::{Row, Table, Tables};

#[cfg(test)]
mod tests;
