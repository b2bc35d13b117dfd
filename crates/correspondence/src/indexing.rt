//! Making an index of rows, and finding in it.
ghost use Rattle.std.specs.Prelude.{◌≡◌, ◌++◌, ◌<◌, ◌≤◌, ℕ, List, Some, IfOk, MatchResult, false, length, map, slice_get};
ghost use Rattle.std.specs.Ordering.{nat_cmp, is_lt};
ghost use Rattle.std.specs.Cmp.Lexicographic.{slice_cmp};
ghost use Rattle.std.specs.declared.cmp.Ordering.TheVariants.{Less};
ghost use Rattle.correspondence.specs.Cover.{IsFirstCover};
ghost use Rattle.correspondence.specs.Index as spec;
ghost use Rattle.correspondence.specs.declared.entry.Entry.{Entry as EntryData};

use crate::covering::covers;
use crate::entry::{Entry, Key};
use crate::index::RowIndex;
use std::alloc::Global;
use std::cmp::Ordering;
use table_source::{Row, Table};
use tern_core::Tern;
use text_scan::NoMemory;

fn code(value: Tern) -> u8
    ensures { result ≡ spec.code value }
{
    match value {
        Tern::Zero => 0,
        Tern::One => 1,
        Tern::Unknown => 2,
    }
}

// The number of some values and one more. From 2^55 on it stays, so that it never grows too large.
#[tactic(auto, unfolding(crate::specs::Index::with_value))]
fn with_value(front: u64, value: Tern) -> u64
    ensures { result ≡ spec.with_value front value }
{
    if front < 36_028_797_018_963_968 {
        front * 4 + u64::from(code(value))
    } else {
        front
    }
}

fn front_from(front: u64, word: &[Tern]) -> u64
    ensures { result ≡ spec.front_from front word.now }
{
    word.iter()
        .fold(front, |front, value| with_value(front, *value))
}

fn front(pins: &[Tern], liberty: &[Tern], udps: &[Tern]) -> u64
    ensures { result ≡ spec.front pins.now liberty.now udps.now }
{
    front_from(front_from(front_from(0, pins), liberty), udps)
}

// These words, one behind the other.
fn joined(
    alloc: Global,
    pins: &[Tern],
    liberty: &[Tern],
    udps: &[Tern],
) -> Result<Vec<u8>, NoMemory>
    ensures { IfOk result (λ words. words.items ≡ spec.words pins.now liberty.now udps.now) }
{
    let values = pins.iter().chain(liberty.iter().chain(udps.iter()));
    Ok(values.map(|value| code(*value)).collect(alloc)?)
}

fn entry_of(alloc: Global, row: &Row, place: usize) -> Result<Entry, NoMemory>
    ensures { IfOk result (λ entry. spec.IsOf row.now place entry) }
{
    let (pins, liberty, udps) = (
        row.pins.as_slice(),
        row.liberty.as_slice(),
        row.udps.as_slice(),
    );
    let key = Key {
        front: front(pins, liberty, udps),
        words: joined(alloc, pins, liberty, udps)?,
    };
    Ok(Entry { key, row: place })
}

// The entries of rows, in the order of these.
fn entries_of(alloc: Global, rows: &[Row]) -> Result<Vec<Entry>, NoMemory>
    ensures { IfOk result (λ entries. spec.AreEntriesOf rows.now entries.items) }
{
    let mut entries = Vec::with_capacity(alloc, rows.len())?;
    for i in 0..rows.len() {
        let entry = entry_of(alloc, &rows[i], i)?;
        entries.push(entry)?;
    }
    Ok(entries)
}

// What of a key's front is left behind this word, or how the key stands to each that begins with the word.
fn behind_word<'a>(words: &'a [u8], word: &[Tern]) -> Result<&'a [u8], Ordering>
    ensures { MatchResult result
        (λ rest. (more : List ℕ) → slice_cmp nat_cmp words.now (map spec.code word.now ++ more) ≡ slice_cmp nat_cmp rest.now more)
        (λ o. (more : List ℕ) → slice_cmp nat_cmp words.now (map spec.code word.now ++ more) ≡ o) }
{
    let mut rest = words;
    for value in word {
        match rest {
            [] => return Err(Ordering::Less),
            [first, more @ ..] => match first.cmp(&code(*value)) {
                Ordering::Equal => rest = more,
                order => return Err(order),
            },
        }
    }
    Ok(rest)
}

// How a key's words stand to these.
fn compare_words(words: &[u8], pins: &[Tern], liberty: &[Tern], udps: &[Tern]) -> Ordering
    ensures { result ≡ slice_cmp nat_cmp words.now (spec.words pins.now liberty.now udps.now) }
{
    match behind_word(words, pins) {
        Err(order) => order,
        Ok(rest) => match behind_word(rest, liberty) {
            Err(order) => order,
            Ok(rest) => match behind_word(rest, udps) {
                Err(order) => order,
                Ok([]) => Ordering::Equal,
                Ok(_) => Ordering::Greater,
            },
        },
    }
}

impl Key {
    // How the key stands to that of these words, whose number is the front.
    fn compare(&self, front: u64, pins: &[Tern], liberty: &[Tern], udps: &[Tern]) -> Ordering
        ensures { result ≡ spec.key_cmp (spec.pair_of self.now) (front, spec.words pins.now liberty.now udps.now) }
    {
        match self.front.cmp(&front) {
            Ordering::Equal => compare_words(&self.words, pins, liberty, udps),
            order => order,
        }
    }
}

impl RowIndex {
    /// The index of this table's rows.
    pub fn new(alloc: Global, table: &Table) -> Result<RowIndex, NoMemory>
        ensures { IfOk result (λ index. spec.IsIndexOf table.now.rows index) }
    {
        let mut entries = entries_of(alloc, table.rows.as_slice())?;
        entries.sort()?;
        Ok(RowIndex { entries })
    }

    // The place of the first entry whose key isn't below that of these words, whose number is the front.
    fn first_at(&self, front: u64, pins: &[Tern], liberty: &[Tern], udps: &[Tern]) -> usize
        requires { spec.IsSortedIndex self.now }
        ensures { spec.IsFirstAt self.now.entries.items (front, spec.words pins.now liberty.now udps.now) result }
    {
        self.entries.as_slice().partition_point(|entry| entry
            .key
            .compare(front, pins, liberty, udps)
            .is_lt())
    }

    /// The place of the table's first row that covers these values, as `cover` tells it, for an index of this table. Takes no
    /// memory, and looks only at rows whose first three words are these.
    pub fn cover(
        &self,
        table: &Table,
        pins: &[Tern],
        liberty: &[Tern],
        udps: &[Tern],
        nodes: &[Tern],
    ) -> Option<usize>
        requires { spec.IsIndexOf table.now.rows self.now }
        ensures { IsFirstCover table.now.rows pins.now liberty.now udps.now nodes.now result }
    {
        let rows = table.rows.as_slice();
        let front = front(pins, liberty, udps);
        for i in self.first_at(front, pins, liberty, udps)..self.entries.len() {
            let entry = &self.entries[i];
            if entry.key.compare(front, pins, liberty, udps).is_ne() {
                return None;
            }
            if covers(&rows[entry.row], pins, liberty, udps, nodes) {
                return Some(entry.row);
            }
        }
        None
    }
}
