//! Networks of gates and user-defined primitives (IEEE 1364-2005, clauses 7 and 8): the one settled
//! assignment of values to the nets, and what it becomes when the input pins change.
#![tactic(auto)]

mod claims;
mod connecting;
mod feeders;
mod gate;
pub mod laws;
mod network;
mod order;
mod reach;
mod rows;
mod settle;

pub use connecting::{ConnectRefusal, connect};
pub use gate::{Fold, Function, Gate, Given, Operand};
pub use network::GateNet;

#[cfg(test)]
mod tests;
