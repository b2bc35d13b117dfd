//! The tokens of a Verilog text that are left when its compiler directives are obeyed (IEEE 1364-2005, clause 19).
#![tactic(auto)]

mod condition;
mod conditions;
mod directives;
mod held;
mod laws;
mod left;
mod line;
mod lookahead;
mod looking;
mod names;
mod obeying;
mod order;
mod ordering;
mod region;
mod signs;
mod skim;
mod text_lines;
mod word;

pub use directives::Directives;
pub use laws::tokens_without_directives_stay;
pub use left::{Left, Role};
pub use signs::name_in;
pub use word::is_reserved;

#[cfg(test)]
mod tests;
