//! The records of a text of comma-separated values, and how they are read one after the other into what they make.
#![tactic(auto)]

mod fields;
mod reading;
mod rows;

pub use fields::{check_name, unless};
pub use reading::{Entries, read_records};
