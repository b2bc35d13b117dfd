//! What a Verilog source text of gates and user-defined primitives says (IEEE 1364-2005, clauses 7,
//! 8 and 12): its modules and primitives, each whole or refused with the construct that refused it.
#![tactic(auto)]

mod module;
mod primitive;

pub use module::{Element, Module, ModulePart, Port, Terminal};
pub use primitive::{UdpPart, UdpText};
use text_scan::Items;

/// A source text. Modules and primitives stand in the order of the text, each among its kind.
#[derive(Debug, Drop)]
pub struct Source {
    pub modules: Items<ModulePart>,
    pub primitives: Items<UdpPart>,
}

#[cfg(test)]
mod tests;
