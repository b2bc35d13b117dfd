//! User-defined primitives (IEEE 1364-2005, clause 8): from a primitive's text to a table that
//! answers what the output is, or what the state becomes after one change or after several at once.
#![tactic(auto)]

mod answer;
mod conflict;
pub mod laws;
mod order;
mod read;
mod refusal;
mod row;
mod states;
mod symbol;
mod udp;

pub use order::OrderRoom;
pub use refusal::UdpRefusal;
pub use row::{EdgeRow, LevelRow, Row};
pub use symbol::{EdgeSymbol, LevelSymbol, NextState};
pub use udp::{MAX_INPUTS, Udp, build};

#[cfg(test)]
mod tests;
