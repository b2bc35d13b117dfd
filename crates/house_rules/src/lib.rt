//! What a house wants of pins beside the agreement of the views: rules of its own, asked of pin tables.
#![tactic(auto)]

mod book;
mod findings;
mod questions;
mod refusal;
mod rule;
mod rules;

pub use book::HouseBook;
pub use questions::{begins_otherwise, has_more_signals, has_other_byte};
pub use refusal::BookRefusal;
pub use rule::{HouseRule, Question};

#[cfg(test)]
mod tests;
