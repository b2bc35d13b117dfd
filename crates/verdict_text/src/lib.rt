//! What a check finds of a cell and why a cell is refused: their lines in a report, and a cell's block, which is read back
//! in one way only.
#![tactic(auto)]

mod block;
mod finding;
pub mod laws;
mod line;
mod reason;
mod reason_line;
mod told;
mod told_reason;
mod verdict;
mod well_formed;
mod write;

pub use block::read_block;
pub use finding::{Change, Code, Finding, Mismatch, View};
pub use reason::Reason;
pub use told::code_of;
pub use verdict::{CellResult, Verdict, VerdictWord};
pub use write::{write_block, write_finding, write_reason};

#[cfg(test)]
mod tests;
