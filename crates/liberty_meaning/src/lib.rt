//! What a Liberty cell does: its outputs, flip-flops, latches and state tables (Liberty User Guide).
#![tactic(auto)]

mod behaviour;
mod cell;
pub mod laws;
mod names;
mod outputs;
mod pair;
mod pairs;
mod refusal;
mod symbols;
mod table;
mod table_rows;
mod table_text;

pub use behaviour::Behaviour;
pub use cell::compile;
pub use refusal::MeaningRefusal;
