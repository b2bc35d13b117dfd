//! The grammar of modules.
#![tactic(auto)]

mod module_actions;
mod module_moves;
mod module_phase;
mod module_reader;
mod module_text;
mod ports;

pub use module_phase::{ModuleAction, ModuleMove, ModulePhase};
pub use module_reader::ModuleReader;
pub use module_text::{Declared, ModuleText};
pub use ports::Ports;
