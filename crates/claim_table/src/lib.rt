//! The table from which workers claim the cells of a batch. One word counts the claims: who adds one to it has claimed the number
//! that stood there, so each cell is claimed once, by whichever worker comes first.
//!
//! Each worker claims with a seat. What a seat has claimed is a list that proofs alone see, and its budget says how many claims
//! past the last cell it may make, so that the word never wraps.
#![tactic(auto)]

mod calls;
mod rule;
mod table;

pub use rule::{BatchSize, ClaimRule, ClaimView};
pub use table::{ClaimSeat, ClaimTable};

#[cfg(test)]
mod tests;
