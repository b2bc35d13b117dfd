//! The questions that rules ask. A closure that calls one of them answers what the rule finds.
ghost use Rattle.std.specs.Prelude.{◌≡◌, ℕ, List, count_by};
ghost use Rattle.std.specs.Str.Parse.{digits_value};
ghost use Rattle.house_rules.specs.Rules as spec;
ghost use Rattle.verdict_text.specs.declared.finding.Code.TheVariants as codes;

use pin_tables::{Pin, PinTable};
use text_scan::PinKind;

/// What `H1` finds with this setting: asked of the cell, that its name doesn't begin so.
pub fn begins_otherwise(beginning: &[u8], table: &PinTable, place: Option<usize>) -> bool
    ensures { result ≡ spec.finds codes.H1 beginning.now table.now place }
{
    match place {
        None => !table.cell.as_bytes().starts_with(beginning),
        Some(_) => false,
    }
}

fn is_signal(pin: &Pin) -> bool
    ensures { result ≡ spec.is_signal pin.now }
{
    matches!(pin.kind, PinKind::Signal)
}

fn signal_pins(table: &PinTable) -> usize
    ensures { result ≡ count_by spec.is_signal table.now.pins }
{
    table
        .pins
        .as_slice()
        .iter()
        .filter(|pin| is_signal(pin))
        .count()
}

/// What `H2` finds with a setting of this number: asked of the cell, that it has more signal pins.
pub fn has_more_signals(most: usize, table: &PinTable, place: Option<usize>) -> bool
    ensures { (setting : List ℕ) → digits_value 10 setting ≡ most → result ≡ spec.finds codes.H2 setting table.now place }
{
    match place {
        None => most < signal_pins(table),
        Some(_) => false,
    }
}

fn lacks(letters: &[u8], byte: u8) -> bool
    ensures { result ≡ spec.lacks letters.now byte }
{
    !letters.contains(&byte)
}

fn is_misspelled(letters: &[u8], name: &[u8]) -> bool
    ensures { result ≡ spec.is_misspelled letters.now name.now }
{
    name.iter().any(|byte| lacks(letters, *byte))
}

/// What `H3` finds with these letters: asked of a pin, that its name has a byte that is none of them.
pub fn has_other_byte(letters: &[u8], table: &PinTable, place: Option<usize>) -> bool
    ensures { result ≡ spec.finds codes.H3 letters.now table.now place }
{
    let Some(place) = place else {
        return false;
    };
    match table.pins.as_slice().get(place) {
        None => false,
        Some(pin) => is_misspelled(letters, pin.name.as_bytes()),
    }
}
