//! An entry of an index of waivers.
ghost use Rattle.std.specs.Prelude.{◌≡◌};
ghost use Rattle.waiver_source.specs.Index as spec;

use std::cmp::Ordering;

/// What a waiver is found by.
#[derive(Debug, Drop, PartialEq, Eq, PartialOrd, Ord)]
pub(crate) struct Key {
    /// The code's word.
    pub(crate) code: &'static str,
    /// The word for cells.
    pub(crate) cell: Vec<u8>,
    /// The word for pins.
    pub(crate) pin: Vec<u8>,
}

/// The key of a waiver, and its place among all.
#[derive(Debug, Drop, PartialEq, Eq, PartialOrd, Ord)]
pub(crate) struct PlacedKey {
    pub(crate) key: Key,
    pub(crate) place: usize,
}

/// A waiver's key and place, and the latest last day of the waivers up to it that have this key.
#[derive(Debug, Drop)]
pub(crate) struct Entry {
    pub(crate) placed: PlacedKey,
    pub(crate) latest: i32,
}

impl Key {
    // How the key stands to that of these words.
    pub(crate) fn compare(&self, code: &str, cell: &[u8], pin: &[u8]) -> Ordering
        ensures { result ≡ spec.words_cmp (spec.words_of self.now) (code.now, (cell.now, pin.now)) }
    {
        match self.code.cmp(code) {
            Ordering::Equal => match self.cell.as_slice().cmp(cell) {
                Ordering::Equal => self.pin.as_slice().cmp(pin),
                order => order,
            },
            order => order,
        }
    }
}
