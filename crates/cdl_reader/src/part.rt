//! What is read of a subcircuit.
use circuit::Transistor;
use text_scan::{Direction, Items, Text};

/// The word at which a subcircuit is refused, and its line.
#[derive(Debug, Drop)]
pub struct Construct {
    pub card: Text,
    pub line: u32,
}

/// A subcircuit so far: its pins, what is told of them, and its transistors, each in the order of the text.
#[derive(Debug, Drop)]
pub struct Part {
    pub name: Text,
    pub pins: Items<Text>,
    pub told: Items<(Text, Direction)>,
    pub transistors: Items<Transistor>,
    pub refusal: Option<Construct>,
}
