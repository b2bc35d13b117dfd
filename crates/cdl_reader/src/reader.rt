//! The state of a reader between two cards.
use crate::parts::Parts;

/// What was read last.
#[derive(Clone, Copy, Debug, PartialEq, Eq)]
pub enum Phase {
    /// A card outside subcircuits, the end of one, or nothing.
    Outside,
    /// A card of a subcircuit, the first one among them.
    Inside,
    /// The first card of a subcircuit, without a name.
    Nameless,
}

#[derive(Drop)]
pub struct Reader {
    pub phase: Phase,
    pub parts: Parts,
}
