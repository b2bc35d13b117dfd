//! A house's waivers: their files and days, and the findings that they cover.
#![tactic(auto)]

mod applied;
mod cover;
mod date_parts;
mod day;
mod fields;
mod file;
mod rows;

pub use applied::apply;
pub use cover::covered;
pub use day::read_day;
pub use file::read_waivers;

#[cfg(test)]
mod tests;
