use tern_core::Tern;
use text_scan::Items;

/// What an input of a gate is fed by.
#[derive(Clone, Copy, Debug)]
pub enum Operand {
    /// A net, by its place.
    Net(usize),
    Constant(Tern),
}

/// How a logic gate takes its inputs together (IEEE 1364-2005, 7.2 and 7.3).
#[derive(Clone, Copy, Debug)]
pub enum Fold {
    And,
    Or,
    Xor,
}

/// What a gate's outputs are.
#[derive(Clone, Copy, Debug)]
pub enum Function {
    /// The inputs taken together, and then inverted or not. A buffer has one input.
    Logic { fold: Fold, inverted: bool },
    /// What a combinational primitive's table answers, by the table's place.
    Table(usize),
    /// The state of a sequential primitive, by the places of its table and of its state.
    State { table: usize, state: usize },
}

/// An element of a module with its names resolved.
#[derive(Debug, Drop)]
pub struct Gate {
    /// Where the element stands in the text, counted from 0.
    pub element: usize,
    pub function: Function,
    pub inputs: Items<Operand>,
    /// The nets that it drives, by their places.
    pub outputs: Items<usize>,
}

/// What a net has from outside the gates.
#[derive(Clone, Copy, Debug)]
pub enum Given {
    /// The value of an input pin, by its place.
    Pin(usize),
    /// The value of a supply.
    Fixed(Tern),
    Floating,
}
