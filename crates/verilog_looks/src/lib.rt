//! What items of a Verilog source text are to its grammar, and why reading stops.
#![tactic(auto)]

mod halt;
mod look;
mod names;

pub use halt::{Halt, Refusal};
pub use look::{Look, look_of};
pub use names::{content, text, word_of};
