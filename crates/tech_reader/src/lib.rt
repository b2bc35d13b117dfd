//! Reads a technology: the models, sizes and supplies of a text of comma-separated values.
#![tactic(auto)]

mod fields;
mod laws;
mod parts;
mod public_call;

pub use laws::joined_parts_are_told_apart;
pub use public_call::read_tech;

#[cfg(test)]
mod tests;
