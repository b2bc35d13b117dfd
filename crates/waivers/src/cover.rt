//! The first waiver that covers a finding.
ghost use Rattle.std.specs.Prelude.{◌≡◌};
ghost use Rattle.waivers.specs.Cover as spec;

use text_scan::Text;
use verdict_text::{Code, Finding};
use waiver_source::Waivers;

fn number_at(place: usize) -> u32
    ensures { result ≡ spec.number_at place }
{
    u32::try_from(place).map_or(u32::MAX, |place| place.saturating_add(1))
}

// The lesser of two places, where any is there.
fn earlier(left: Option<usize>, right: Option<usize>) -> Option<usize>
    ensures { result ≡ spec.earlier left right }
{
    match (left, right) {
        (Some(left), Some(right)) => Some(left.min(right)),
        (Some(place), None) | (None, Some(place)) => Some(place),
        (None, None) => None,
    }
}

// What stands in a waiver for the pin.
fn pin_word(pin: &Option<Text>) -> &[u8]
    ensures { result.now ≡ spec.pin_word pin.now }
{
    match pin {
        Some(name) => name.as_bytes(),
        None => b"-",
    }
}

// The first waiver with this word for cells that is for the pin.
fn first_with(waivers: &Waivers, cell: &[u8], code: Code, pin: &[u8], day: i32) -> Option<usize>
    ensures { result ≡ spec.first_with waivers.now cell.now code pin.now day }
{
    let own = waivers.first_place(cell, code, pin, day);
    let all = waivers.first_place(cell, code, b"*", day);
    earlier(own, all)
}

fn first_cover(waivers: &Waivers, finding: &Finding, cell: &[u8], day: i32) -> Option<usize>
    ensures { result ≡ spec.first_cover waivers.now cell.now day finding.now }
{
    let pin = pin_word(&finding.pin);
    let own = first_with(waivers, cell, finding.code, pin, day);
    let all = first_with(waivers, b"*", finding.code, pin, day);
    earlier(own, all)
}

/// The number, from 1, of the first waiver that covers the finding of the cell on the day: its word for cells is `*` or
/// the cell's name, its code is the finding's, its word for pins is `*`, the name of the finding's pin or, for a finding
/// without a pin, `-`, and its last day isn't before the day. None exactly where no waiver covers it.
pub fn covered(waivers: &Waivers, finding: &Finding, cell: &[u8], day: i32) -> Option<u32>
    ensures { result ≡ spec.waiver_for waivers.now cell.now day finding.now }
{
    match first_cover(waivers, finding, cell, day) {
        Some(place) => Some(number_at(place)),
        None => None,
    }
}
