//! Reads the statements of a Liberty library (Liberty User Guide): what is kept of its cells' groups and attributes, or
//! the first thing for which the text is refused. `docs/FORMATS-liberty.md` has the grammar in words.
//!
//! The text's tokens drive a state (`machine`) one by one (`steps`), in which what counts of the statements is kept
//! (`actions`, `entering`).
#![tactic(auto)]

mod actions;
mod entering;
mod halt;
mod machine;
mod reader;
mod statements;
mod steps;

pub use actions::value_text;
pub use halt::{Halt, Refusal};
pub use machine::{Machine, Phase};
pub use reader::read_statements;
pub use statements::{Attribute, CellText, Group, Level, Statements, Value};

#[cfg(test)]
mod tests;
