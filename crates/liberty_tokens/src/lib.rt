//! What the tokens of a Liberty text stand for: the signs and words of its grammar, contents of strings, and names
//! (Liberty User Guide). `docs/FORMATS-liberty.md` has the grammar in words.
#![tactic(auto)]

mod kinds;
mod look;
mod names;

pub use kinds::{
    AttributeKind, GroupKind, attribute_kind, group_kind, is_cell, is_include, is_library,
};
pub use look::{Look, look_of};
pub use names::{between, columns, content, text};

#[cfg(test)]
mod tests;
