use text_scan::{Direction, Items, Text};

/// A file of subcircuits, in its order.
#[derive(Debug, Drop)]
pub struct Netlist {
    pub parts: Items<SubcircuitPart>,
}

/// A subcircuit, or where it was refused.
#[derive(Debug, Drop)]
pub enum SubcircuitPart {
    Whole(Subcircuit),
    Refused {
        name: Text,
        /// The word at which it was refused.
        card: Text,
        /// From 1.
        line: u32,
    },
}

/// A subcircuit: its pins, and its transistors in the order of their cards.
#[derive(Debug, Drop)]
pub struct Subcircuit {
    pub name: Text,
    pub pins: Items<(Text, Direction)>,
    pub transistors: Items<Transistor>,
}

/// A transistor's card. Drain, gate and source are nodes; the bulk is left out.
#[derive(Debug, Drop)]
pub struct Transistor {
    pub name: Text,
    pub drain: Text,
    pub gate: Text,
    pub source: Text,
    pub model: Text,
}
