//! Lines and words.

/// A word of a card.
#[derive(Clone, Copy, Debug, Drop)]
pub struct Word<'a> {
    pub bytes: &'a [u8],
    /// The line of its first byte, from 1, and 4,294,967,295 where it is greater.
    pub line: u32,
    /// The column of its first byte, likewise.
    pub column: u32,
}

/// What is left of a line.
#[derive(Clone, Copy, Drop)]
pub(crate) struct Line<'a> {
    pub(crate) rest: &'a [u8],
    /// How many bytes the whole line has.
    pub(crate) size: usize,
    pub(crate) number: u32,
}

/// The lines that are left of a text.
#[derive(Clone, Copy, Drop)]
pub(crate) struct Lines<'a> {
    pub(crate) text: &'a [u8],
    /// The number of the first of them.
    pub(crate) number: u32,
}
