//! An entry of an index.

/// What a row is found by.
#[derive(Debug, Drop, PartialEq, Eq, PartialOrd, Ord)]
pub(crate) struct Key {
    /// The first values of the words as one number, which tells most keys apart without a look at the words.
    pub(crate) front: u64,
    /// The row's first three words, one behind the other.
    pub(crate) words: Vec<u8>,
}

/// The key of a row, and its place.
#[derive(Debug, Drop, PartialEq, Eq, PartialOrd, Ord)]
pub(crate) struct Entry {
    pub(crate) key: Key,
    pub(crate) row: usize,
}
