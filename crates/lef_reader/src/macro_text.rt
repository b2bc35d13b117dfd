//! What has been read of a macro.
use crate::extent::Extent;
use lef_source::MacroPin;
use name_index::Names;
use text_scan::Items;

/// The pins of a macro so far, and its size.
#[derive(Drop)]
pub struct MacroText {
    /// The names of the pins, also of the one that is read.
    pub names: Names,
    pub pins: Items<MacroPin>,
    /// What stands behind the last `SIZE`.
    pub size: Option<Extent>,
    /// The pin that is read.
    pub pin: MacroPin,
    /// What stands in the port that is read.
    pub port: Option<Extent>,
}
