//! Waits of a transistor network, and laws of its response.
#![tactic(auto)]

pub mod laws;
mod waiting;

pub use waiting::{RESPONSES, Rest, wait};

#[cfg(test)]
mod tests;
