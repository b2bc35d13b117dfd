//! Grammars over tokens, and what a reader by one answers.
//!
//! The definitions stand in `specs/`: a rule, what it takes, its fronts, and reading by it with one token of
//! look-ahead. The theorem on all rules stands in `proofs/`. `docs/READERS.md` explains both.
#![tactic(auto)]

pub mod example;
#[cfg(test)]
mod tests;
