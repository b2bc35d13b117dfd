//! Reads the macros of a LEF file (LEF/DEF 5.8 Language Reference, LEF Syntax), each whole with its pins or with the first
//! word at which it is refused, exact on every byte string. `docs/FORMATS-lef.md` has the grammar in words.
//!
//! The text is read token by token: `outside` reads what stands outside macros, `macros` and `pins` what stands in them,
//! and `passing` goes over the rest.
#![tactic(auto)]

mod extent;
mod file;
mod halt;
mod lef_text;
mod macro_text;
mod macros;
mod outside;
mod passing;
mod pins;
mod public_call;
mod refused;
mod tokens;
mod until;

pub use lef_source::{Lef, Macro, MacroPart, MacroPin};
pub use public_call::read_lef;

#[cfg(test)]
mod tests;
