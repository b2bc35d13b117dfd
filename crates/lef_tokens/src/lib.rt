//! What the tokens of a LEF text stand for: the keywords of its grammar, names, and the words by which refused constructs are
//! shown (LEF/DEF 5.8 Language Reference, LEF Syntax). `docs/FORMATS-lef.md` has the grammar in words.
#![tactic(auto)]

mod look;
mod names;

pub use look::{Look, is_same_word, look_of};
pub use names::{can_name, is_passed, is_word, text, word_of};

#[cfg(test)]
mod tests;
