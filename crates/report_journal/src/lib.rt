//! The journal of a report: its blocks, each on the disk before it is written out. After a crash at
//! any moment the disk stands for a first part of the blocks, with every one that has a receipt.
#![tactic(auto)]

mod append;
mod block_frame;
mod framing;
mod gate;
mod header;
mod journal;
mod kept;
pub mod laws;
mod opening;
mod receipt;
mod step;
mod walk;

pub use block_frame::Frame;
pub use framing::frame;
pub use journal::Journal;
pub use kept::KeptRefusal;
pub use opening::{OpenError, open};
pub use receipt::Receipt;

#[cfg(test)]
mod tests;
