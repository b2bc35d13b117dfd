//! Waivers as plain data: the findings that a house lives with, and until when. What a reader of waiver files gives, and
//! what a check's findings are held against.
#![tactic(auto)]

mod entry;
mod finding;
mod indexing;
mod waiver;
mod waivers;

pub use waiver::Waiver;
pub use waivers::Waivers;
