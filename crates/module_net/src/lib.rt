//! A Verilog module's elements as a network of gates over its named nets (IEEE 1364-2005, clauses 7, 8 and 12).
#![tactic(auto)]

mod building;
mod elements;
mod gates;
pub mod laws;
mod name_list;
mod naming;
mod net;
mod outside;
mod primitives;
mod refusal;
mod word;

pub use building::build;
pub use elements::drive_nets;
pub use net::ModuleNet;
pub use primitives::Primitives;
pub use refusal::GateRefusal;
pub use word::{GateWord, element_word, gate_word};

#[cfg(test)]
mod tests;
