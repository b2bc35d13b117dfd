//! What is read of a netlist.
use crate::part::Part;
use circuit::SubcircuitPart;
use name_index::Names;
use text_scan::Items;

/// The names of the subcircuits so far, those that have ended, and the one that is open.
#[derive(Drop)]
pub struct Parts {
    pub names: Names,
    pub parts: Items<SubcircuitPart>,
    pub part: Part,
}
