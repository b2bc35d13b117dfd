//! Compares a cell's Liberty description with its Verilog module: pins first, then every input vector (Liberty User
//! Guide; IEEE 1364-2005, clauses 7, 8 and 12).
#![tactic(auto)]

mod comparison;
mod judging;
pub mod laws;
mod models;
mod pins;
mod primitives;
mod reasons;
mod rows;
mod tally;

pub use comparison::Comparison;
pub use judging::compare_part;
pub use models::Models;
