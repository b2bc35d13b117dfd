use tern_core::Tern;
use text_scan::{Direction, Items, Text};

/// A module, or the construct at which it was refused and its line, counted from 1.
#[derive(Debug, Drop)]
pub enum ModulePart {
    Whole(Module),
    Refused {
        name: Text,
        construct: Text,
        line: u32,
    },
}

/// A module without hierarchy (IEEE 1364-2005, clause 12).
#[derive(Debug, Drop)]
pub struct Module {
    pub name: Text,
    /// The ports in the order of the port list.
    pub ports: Items<Port>,
    /// The nets that `supply0` and `supply1` name, with 0 and 1, in the order of the text.
    pub supplies: Items<(Text, Tern)>,
    /// The instances of gates and primitives, in the order of the text.
    pub elements: Items<Element>,
}

#[derive(Debug, Drop)]
pub struct Port {
    pub name: Text,
    pub direction: Direction,
}

/// An instance of a gate (clause 7) or of a user-defined primitive (clause 8).
#[derive(Debug, Drop)]
pub struct Element {
    /// The gate's word, or the primitive's name.
    pub kind: Text,
    /// Whether `kind` is a gate's word. An escaped identifier is none, whatever its letters (3.7.2), and names a
    /// primitive.
    pub is_gate: bool,
    /// The instance's name, or where it has none its first terminal's.
    pub label: Text,
    /// The terminals in their order, the output first.
    pub terminals: Items<Terminal>,
}

/// What stands in a terminal's place: a net's name, or the constant 0 or 1.
#[derive(Debug, Drop)]
pub enum Terminal {
    Net(Text),
    Constant(Tern),
}
