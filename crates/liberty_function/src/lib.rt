//! Functions of a Liberty library (Liberty User Guide, "function Simple Attribute", its table of operators): which text
//! spells which function, a compiled form over numbered pins and states, and its value.
#![tactic(auto)]

mod compiler;
mod function;
pub mod laws;
mod program;
mod scope;
mod texts;
mod words;

pub use function::Program;
pub use program::{Source, source_value, value_at};
pub use scope::Scope;
pub use texts::{TextRefusal, compile_text};
pub use words::is_blank;

#[cfg(test)]
mod tests;
