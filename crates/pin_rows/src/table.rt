//! Pin tables as words have them: `NAME:D`, `NAME:D+` or `NAME:D-` with commas between two, where D is `i`, `o`, `b`, `f`,
//! `n` or `a` for an input, an output, both, a feedthrough, an internal pin or none, and `+` is a power supply, `-` a ground.
//! `.` has no pins.
use pin_tables::{Pin, PinTable};
use std::alloc::Global;
use text_scan::{Direction, Items, NoMemory, PinKind, Text};

fn direction_of(letter: u8) -> Direction {
    match letter {
        b'i' => Direction::Input,
        b'o' => Direction::Output,
        b'b' => Direction::Inout,
        b'f' => Direction::Feedthru,
        b'n' => Direction::Internal,
        _ => Direction::Absent,
    }
}

fn letter_of(direction: Direction) -> &'static str {
    match direction {
        Direction::Input => "i",
        Direction::Output => "o",
        Direction::Inout => "b",
        Direction::Feedthru => "f",
        Direction::Internal => "n",
        Direction::Absent => "a",
    }
}

fn kind_of(sign: u8) -> PinKind {
    match sign {
        b'+' => PinKind::Power,
        b'-' => PinKind::Ground,
        _ => PinKind::Signal,
    }
}

fn sign_of(kind: PinKind) -> &'static str {
    match kind {
        PinKind::Signal => "",
        PinKind::Power => "+",
        PinKind::Ground => "-",
    }
}

fn pin_of(alloc: Global, word: &str) -> Result<Pin, NoMemory> {
    let mut parts = word.split(':');
    let name = Text::from_bytes(alloc, parts.next().unwrap_or("").as_bytes())?;
    let mut letters = parts.next().unwrap_or("").as_bytes().iter().copied();
    let direction = direction_of(letters.next().unwrap_or(b'a'));
    let kind = kind_of(letters.next().unwrap_or(b' '));
    Ok(Pin {
        name,
        direction,
        kind,
    })
}

fn pins_of(alloc: Global, words: &str) -> Result<Items<Pin>, NoMemory> {
    let mut pins = Items::new(alloc);
    for word in words.split(',') {
        if word != "." {
            pins.push(pin_of(alloc, word)?)?;
        }
    }
    Ok(pins)
}

/// The table of these words, for a cell of no other name.
pub fn table_of(alloc: Global, words: &str) -> Result<PinTable, NoMemory> {
    Ok(PinTable {
        cell: Text::from_bytes(alloc, b"CELL")?,
        pins: pins_of(alloc, words)?,
    })
}

/// The technology's supplies that stand in a table's words; their directions say nothing.
pub fn supplies_of(alloc: Global, words: &str) -> Result<Vec<(Text, PinKind)>, NoMemory> {
    let mut supplies = Vec::new(alloc);
    for pin in pins_of(alloc, words)?.as_slice() {
        supplies.push((pin.name.copied(alloc)?, pin.kind))?;
    }
    Ok(supplies)
}

/// What a pin's word has behind the name.
pub fn said_of(pin: &Pin) -> (&'static str, &'static str) {
    (letter_of(pin.direction), sign_of(pin.kind))
}
