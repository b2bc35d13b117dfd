//! A part of the text that is kept.

/// The bytes from one index to before another.
#[derive(Clone, Copy, Debug)]
pub struct Extent {
    pub from: usize,
    pub to: usize,
}
