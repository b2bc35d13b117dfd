//! The grammar of user-defined primitives.
#![tactic(auto)]

mod row;
mod udp_actions;
mod udp_moves;
mod udp_phase;
mod udp_reader;
mod udp_text;

pub use row::Row;
pub use udp_phase::{UdpAction, UdpMove, UdpPhase};
pub use udp_reader::UdpReader;
pub use udp_text::{PrimitiveText, UdpDeclared};
