//! What has been read of a file.
use name_index::Names;
use text_scan::{Items, Text};
use verilog_source::{ModulePart, UdpPart};

/// What has begun last outside parts.
#[derive(Clone, Copy, Debug)]
pub enum Opened {
    /// A line that was passed over.
    Line,
    Module,
    Primitive,
    /// The end of the text.
    End,
}

/// The parts of a file so far.
#[derive(Drop)]
pub struct FileText {
    /// The names of modules and primitives, also of refused ones.
    pub names: Names,
    pub modules: Items<ModulePart>,
    pub primitives: Items<UdpPart>,
    pub opened: Opened,
    /// The name of the part that is read.
    pub name: Text,
}
