//! Reads a Verilog source text.
#![tactic(auto)]

mod file_actions;
mod file_moves;
mod file_phase;
mod file_reader;
mod file_steps;
mod file_text;
pub mod laws;
mod parts;
mod public_call;
mod reading;
mod refusals;
#[cfg(test)]
mod tests;

pub use public_call::read_source;
pub use verilog_source::{Element, Module, ModulePart, Port, Source, Terminal, UdpPart, UdpText};
