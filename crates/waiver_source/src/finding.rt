//! Finding a waiver in an index.
ghost use Rattle.std.specs.Prelude.{◌≡◌, List};
ghost use Rattle.waiver_source.specs.Index as spec;
ghost use Rattle.waiver_source.specs.Places.{first_place};
ghost use Rattle.waiver_source.specs.declared.waiver.Waiver.{Waiver as WaiverData};

use crate::entry::Entry;
use std::cmp::Ordering;
use verdict_text::Code;

// Whether the entry stands before those with these words whose latest last day isn't before the day.
fn is_before(entry: &Entry, cell: &[u8], code: Code, pin: &[u8], day: i32) -> bool
    ensures { result ≡ spec.is_before (spec.words_for cell.now code pin.now) day entry.now }
{
    match entry.placed.key.compare(code.word(), cell, pin) {
        Ordering::Less => true,
        Ordering::Equal => entry.latest < day,
        Ordering::Greater => false,
    }
}

// How many entries stand before them.
fn first_at(index: &[Entry], cell: &[u8], code: Code, pin: &[u8], day: i32) -> usize
    ensures { (waivers : List WaiverData) → spec.IsIndexOf waivers index.now → spec.IsFirstAt index.now (spec.words_for cell.now code pin.now) day result }
{
    index.partition_point(|entry| is_before(entry, cell, code, pin, day))
}

/// The place of the first of an index's waivers with these words whose last day isn't before the day.
pub(crate) fn first_in(
    index: &[Entry],
    cell: &[u8],
    code: Code,
    pin: &[u8],
    day: i32,
) -> Option<usize>
    ensures { (waivers : List WaiverData) → spec.IsIndexOf waivers index.now → result ≡ first_place waivers cell.now code pin.now day }
{
    match index.get(first_at(index, cell, code, pin, day)) {
        Some(entry) => {
            let order = entry.placed.key.compare(code.word(), cell, pin);
            if order.is_eq() {
                Some(entry.placed.place)
            } else {
                None
            }
        }
        None => None,
    }
}
