//! Cases as words have them.
use std::alloc::Global;
use tern_core::Tern;
use text_scan::{Items, NoMemory, Text};

/// What is shown of a module's network.
#[derive(Drop)]
pub struct Case {
    pub module: Text,
    pub inputs: Items<Text>,
    pub supplies: Items<(Text, Tern)>,
    pub states: Vec<Tern>,
    pub steps: Items<Text>,
    pub nets: Items<Text>,
}

fn value_of(symbol: u8) -> Tern {
    match symbol {
        b'0' => Tern::Zero,
        b'1' => Tern::One,
        _ => Tern::Unknown,
    }
}

/// The values of these symbols.
pub fn values_of(alloc: Global, symbols: &[u8]) -> Result<Vec<Tern>, NoMemory> {
    let mut values = Vec::new(alloc);
    for symbol in symbols {
        values.push(value_of(*symbol))?;
    }
    Ok(values)
}

fn texts_of(alloc: Global, words: &str) -> Result<Items<Text>, NoMemory> {
    let mut texts = Items::new(alloc);
    for word in words.split(',') {
        if !word.is_empty() {
            texts.push(Text::from_bytes(alloc, word.as_bytes())?)?;
        }
    }
    Ok(texts)
}

/// `NAME=VALUE`.
fn supply_of(alloc: Global, word: &str) -> Result<(Text, Tern), NoMemory> {
    let mut parts = word.split('=');
    let name = Text::from_bytes(alloc, parts.next().unwrap_or("").as_bytes())?;
    let symbols = parts.next().unwrap_or("").as_bytes();
    Ok((name, value_of(symbols.first().copied().unwrap_or(b'X'))))
}

fn supplies_of(alloc: Global, words: &str) -> Result<Items<(Text, Tern)>, NoMemory> {
    let mut supplies = Items::new(alloc);
    for word in words.split(',') {
        if !word.is_empty() {
            supplies.push(supply_of(alloc, word)?)?;
        }
    }
    Ok(supplies)
}

impl Case {
    pub fn of(alloc: Global, word: &str) -> Result<Case, NoMemory> {
        let mut parts = word.split(':');
        let module = Text::from_bytes(alloc, parts.next().unwrap_or("").as_bytes())?;
        let inputs = texts_of(alloc, parts.next().unwrap_or(""))?;
        let supplies = supplies_of(alloc, parts.next().unwrap_or(""))?;
        let states = values_of(alloc, parts.next().unwrap_or("").as_bytes())?;
        let steps = texts_of(alloc, parts.next().unwrap_or(""))?;
        let nets = texts_of(alloc, parts.next().unwrap_or(""))?;
        Ok(Case {
            module,
            inputs,
            supplies,
            states,
            steps,
            nets,
        })
    }
}
