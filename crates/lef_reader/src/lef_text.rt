//! What has been read of a file.
use lef_source::MacroPart;
use name_index::Names;
use text_scan::Items;

/// The macros of a file so far.
#[derive(Drop)]
pub struct LefText {
    /// Their names, also of refused ones.
    pub names: Names,
    pub macros: Items<MacroPart>,
}
