//! The outside of the program: a shelf of files that are read by name, a sink for what is written,
//! and a disk with what a stop may leave of it. Each device counts its faults, and the memory forms
//! tell what they hold.
#![tactic(auto)]

mod asked;
mod disk;
mod disk_asked;
mod disk_entry;
mod faults;
mod file_disk;
mod file_shelf;
mod memory_disk;
mod memory_shelf;
mod memory_sink;
mod out_sink;
mod reading;
mod shelf;
mod sink;

pub use asked::Asked;
pub use disk::{Disk, DiskFailed};
pub use disk_asked::DiskAsked;
pub use faults::NoMemory;
pub use file_disk::FileDisk;
pub use file_shelf::FileShelf;
pub use memory_disk::MemDisk;
pub use memory_shelf::MemShelf;
pub use memory_sink::MemSink;
pub use out_sink::OutSink;
pub use reading::{ReadRefusal, read_file};
pub use shelf::{Shelf, ShelfFailed};
pub use sink::{Sink, SinkFailed};

#[cfg(test)]
mod disk_tests;
#[cfg(test)]
mod tests;
