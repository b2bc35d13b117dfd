//! What all readers of files share: which texts are names, how refused constructs are shown, and how a passed limit
//! and a token at which a file goes wrong are told.
#![tactic(auto)]

mod names;
mod refusals;
mod shown;
mod slices;

pub use names::{is_name, is_too_long};
pub use refusals::{at_token, too_many};
pub use shown::{shown_string, shown_word};
pub use slices::slice;

#[cfg(test)]
mod tests;
