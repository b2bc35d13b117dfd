//! The pins that each view gives a cell, and where the views differ.
#![tactic(auto)]

mod absent;
mod findings;
mod index;
pub mod laws;
mod lookup;
mod makers;
mod rule;
mod table;

pub use findings::pin_findings;
pub use makers::{liberty_pins, macro_pins, module_pins, subcircuit_pins};
pub use table::{FourViews, Pin, PinTable, Role};

#[cfg(test)]
mod tests;
