//! Reads a transistor netlist in the circuit description language (CDL): its subcircuits, each whole with its pins and
//! transistors or with the first card in it that isn't read, exact on every byte string. `docs/FORMATS-cdl.md` has the
//! grammar in words. The technology beside a netlist is read by `tech_reader`, whose call stands here too.
//!
//! The text is read card by card (`cdl_cards`); what a card adds is `actions` and `part`.
#![tactic(auto)]

mod actions;
mod ends;
mod kinds;
mod names;
mod part;
mod parts;
mod pins;
mod public_call;
mod reader;
mod steps;
mod transistors;

pub use circuit::{Netlist, Subcircuit, SubcircuitPart, Tech, Transistor};
pub use public_call::read_netlist;
pub use tech_reader::read_tech;

#[cfg(test)]
mod tests;
