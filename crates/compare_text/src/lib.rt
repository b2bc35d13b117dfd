//! The compare text: a block of lines for each cell of a library, and the totals.
#![tactic(auto)]

mod block;
pub mod laws;
mod report;
mod verdict;

pub use report::{CompareReport, Totals, compare_library};
pub use verdict::CompareVerdict;
