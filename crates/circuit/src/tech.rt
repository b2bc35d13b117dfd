use text_scan::{Items, PinKind, Text};

/// A technology: the strengths of transistors and nodes, and the supplies.
#[derive(Debug, Drop)]
pub struct Tech {
    pub models: Items<ModelCard>,
    pub sizes: Items<Size>,
    pub supplies: Items<Supply>,
}

/// A model of transistors.
#[derive(Debug, Drop)]
pub struct ModelCard {
    pub name: Text,
    /// Whether it has a p channel; else an n channel.
    pub p: bool,
    /// 4 to 7.
    pub strength: u8,
}

/// The strength of one storage node of a cell, where it isn't 1.
#[derive(Debug, Drop)]
pub struct Size {
    pub cell: Text,
    pub node: Text,
    /// 1 to 3.
    pub strength: u8,
}

/// A supply: a pin name, and which supply it is.
#[derive(Debug, Drop)]
pub struct Supply {
    pub name: Text,
    pub kind: PinKind,
}
