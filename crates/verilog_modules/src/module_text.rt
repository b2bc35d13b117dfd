//! What has been read of a module.
use crate::ports::Ports;
use tern_core::Tern;
use text_scan::{Direction, Items, Text};
use verilog_source::{Element, Terminal};

/// What a declaration says of each of its names.
#[derive(Clone, Copy, Debug)]
pub enum Declared {
    /// The direction of a port.
    Port(Direction),
    /// Nothing that is kept.
    Net,
    /// A net that has always this value.
    Supply(Tern),
}

/// What has been read of a module after its name.
#[derive(Drop)]
pub struct ModuleText {
    pub ports: Ports,
    pub supplies: Items<(Text, Tern)>,
    pub elements: Items<Element>,
    /// The direction that stands last in the port list.
    pub direction: Direction,
    /// What the declaration that is read says.
    pub declared: Declared,
    /// The instance that is read: its gate or primitive, whether it is a gate, its label, its terminals.
    pub kind: Text,
    pub is_gate: bool,
    pub label: Text,
    pub terminals: Items<Terminal>,
}
