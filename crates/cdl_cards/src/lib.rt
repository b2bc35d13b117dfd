//! Cuts the text of a circuit description (CDL) into cards: logical lines of words, each with its place. A line whose
//! first word begins with `+` goes on with the card before it; comments, and what stands behind a `$`, are left out.
//! `docs/FORMATS-cdl.md` has the rules in words.
//!
//! A card is read word by word, and what isn't asked for is passed over without a look at its words.
#![tactic(auto)]

mod cards;
mod cutting;
mod ends;
mod kinds;
pub mod laws;
mod line;
mod reading;
mod search;

pub use cards::Cards;
pub use ends::end_of;
pub use kinds::{is_pin_info, is_same_word};
pub use line::Word;
pub use reading::stray_word;
pub use search::begins_with;

#[cfg(test)]
mod tests;
