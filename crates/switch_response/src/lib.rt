//! Networks of transistors and what they do: the switch-level model after R. E. Bryant, "A switch-level model and
//! simulator for MOS digital systems", IEEE Transactions on Computers C-33 (1984).
#![tactic(auto)]

mod building;
mod name_index;
mod naming;
mod network;
mod relax;
mod response;
mod stack;
mod steps;
mod transistor;
mod wiring;

pub use building::{NetRefusal, build};
pub use network::{Scratch, State, SwitchNet, first_change, respond};
pub use steps::Steps;
pub use transistor::{Channel, Transistor};
