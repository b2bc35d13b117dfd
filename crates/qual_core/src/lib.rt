//! The top call: what the words say is done over a shelf of files and a sink.
#![tactic(auto)]

mod command;
mod files;
pub mod laws;
mod reply;
mod top;

pub use command::{Command, CommandName, command_of};
pub use reply::Status;
pub use top::qual;

#[cfg(test)]
mod tests;
