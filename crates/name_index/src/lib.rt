//! Names in order, told apart.
#![tactic(auto)]

mod first_places;
mod names;

pub use names::Names;

#[cfg(test)]
mod tests;
