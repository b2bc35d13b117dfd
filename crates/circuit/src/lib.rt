//! The parts of a transistor netlist and its technology: what a reader of CDL gives, and what a network is built from.
#![tactic(auto)]

mod netlist;
mod tech;

pub use netlist::{Netlist, Subcircuit, SubcircuitPart, Transistor};
pub use tech::{ModelCard, Size, Supply, Tech};
