//! Cases as lines have them.
use circuit::Supply;
use std::alloc::Global;
use tern_core::Tern;
use text_scan::{Items, NoMemory, PinKind, Text};

/// What is done with a network.
#[derive(Drop)]
pub enum Action {
    /// Gives the pins values, in the order of the inputs.
    Pins(Vec<Tern>),
    /// Gives a storage node a value.
    Set(Text, Tern),
    /// Looks for a storage node by its name.
    Find(Text),
    /// One response.
    Step,
    Wait,
}

/// The subcircuit, which of its nodes are inputs and supplies, and what is done with its network.
#[derive(Drop)]
pub struct Case {
    pub cell: Text,
    pub inputs: Items<Text>,
    pub supplies: Items<Supply>,
    pub actions: Items<Action>,
}

fn value_of(symbol: u8) -> Tern {
    match symbol {
        b'0' => Tern::Zero,
        b'1' => Tern::One,
        _ => Tern::Unknown,
    }
}

fn values_of(alloc: Global, symbols: &[u8]) -> Result<Vec<Tern>, NoMemory> {
    let mut values = Vec::new(alloc);
    for symbol in symbols {
        values.push(value_of(*symbol))?;
    }
    Ok(values)
}

/// `NAME=VALUE`.
fn pair_of(alloc: Global, word: &str) -> Result<(Text, Tern), NoMemory> {
    let mut parts = word.split('=');
    let name = Text::from_bytes(alloc, parts.next().unwrap_or("").as_bytes())?;
    let symbols = parts.next().unwrap_or("").as_bytes();
    Ok((name, value_of(symbols.first().copied().unwrap_or(b'X'))))
}

fn supply_of(alloc: Global, word: &str) -> Result<Supply, NoMemory> {
    let (name, value) = pair_of(alloc, word)?;
    let kind = match value {
        Tern::One => PinKind::Power,
        Tern::Zero => PinKind::Ground,
        Tern::Unknown => PinKind::Signal,
    };
    Ok(Supply { name, kind })
}

/// A list with commas; `-` has none.
fn texts_of(alloc: Global, words: &str) -> Result<Items<Text>, NoMemory> {
    let mut texts = Items::new(alloc);
    for word in words.split(',') {
        if word != "-" {
            texts.push(Text::from_bytes(alloc, word.as_bytes())?)?;
        }
    }
    Ok(texts)
}

fn supplies_of(alloc: Global, words: &str) -> Result<Items<Supply>, NoMemory> {
    let mut supplies = Items::new(alloc);
    for word in words.split(',') {
        if word != "-" {
            supplies.push(supply_of(alloc, word)?)?;
        }
    }
    Ok(supplies)
}

impl Action {
    fn of(alloc: Global, word: &str) -> Result<Action, NoMemory> {
        if word == "step" {
            return Ok(Action::Step);
        }
        if word == "wait" {
            return Ok(Action::Wait);
        }
        if let Some(values) = word.strip_prefix("pins=") {
            return Ok(Action::Pins(values_of(alloc, values.as_bytes())?));
        }
        if let Some(name) = word.strip_prefix("find=") {
            return Ok(Action::Find(Text::from_bytes(alloc, name.as_bytes())?));
        }
        let (name, value) = pair_of(alloc, word)?;
        Ok(Action::Set(name, value))
    }
}

impl Case {
    pub fn of(alloc: Global, line: &str) -> Result<Case, NoMemory> {
        let mut words = line.split_whitespace();
        let cell = Text::from_bytes(alloc, words.next().unwrap_or("").as_bytes())?;
        let inputs = texts_of(alloc, words.next().unwrap_or("-"))?;
        let supplies = supplies_of(alloc, words.next().unwrap_or("-"))?;
        let mut actions = Items::new(alloc);
        for word in words {
            actions.push(Action::of(alloc, word)?)?;
        }
        Ok(Case {
            cell,
            inputs,
            supplies,
            actions,
        })
    }
}
