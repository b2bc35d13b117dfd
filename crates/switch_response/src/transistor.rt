/// A kind of transistor. One with an n channel is on where its gate is at 1, one with a p channel where it is at 0.
#[derive(Clone, Copy, Debug, PartialEq, Eq)]
pub enum Channel {
    N,
    P,
}

/// A transistor of a network: its strength, 4 to 7, and the numbers of its nodes.
#[derive(Clone, Copy, Debug)]
pub struct Transistor {
    pub channel: Channel,
    pub gate: usize,
    pub drain: usize,
    pub source: usize,
    pub strength: u8,
}
