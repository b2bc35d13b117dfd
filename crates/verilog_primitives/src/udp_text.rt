//! What has been read of a user-defined primitive.
use crate::row::Row;
use name_index::Names;
use text_scan::{Items, Text};

/// What is said of a name of a primitive's port.
#[derive(Clone, Copy, Debug)]
pub enum UdpDeclared {
    /// Nothing.
    Plain,
    /// That it is the output.
    Output,
    /// That it is the output, and holds a state.
    OutputReg,
    /// That it holds a state.
    Reg,
    /// That it is an input.
    Input,
}

/// What has been read of a primitive after its name.
#[derive(Drop)]
pub struct PrimitiveText {
    /// The names of the ports in their order.
    pub ports: Names,
    /// Whether a declaration names the output.
    pub has_output: bool,
    /// Whether the output holds a state.
    pub sequential: bool,
    /// The names that are declared as inputs.
    pub inputs: Names,
    /// What the declaration that is read says, or the direction that stands last in the port list.
    pub declared: UdpDeclared,
    pub rows: Items<Text>,
    /// The symbols of the row that is read.
    pub row: Row,
}
