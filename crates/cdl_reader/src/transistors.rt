//! Cards of transistors.
ghost use Rattle.std.specs.Prelude.{◌≡◌, ◌∷◌, IfOk};
ghost use Rattle.cdl_cards.specs.Left.{card_left, cards_left, word_of};
ghost use Rattle.cdl_reader.specs.Steps.{AreTerminals, IsTransistor, transistor_by};

use crate::names::{WordFault, check_name, next_name};
use cdl_cards::{Cards, Word};
use circuit::Transistor;
use std::alloc::Global;
use text_scan::{Limits, NoMemory, Text};

/// The names of a transistor that are kept.
#[derive(Clone, Copy, Drop)]
pub struct Terminals<'a> {
    name: Word<'a>,
    drain: Word<'a>,
    gate: Word<'a>,
    source: Word<'a>,
    model: Word<'a>,
}

// The bulk is looked at and left out.
fn read_terminals<'a>(
    limits: &Limits,
    first: Word<'a>,
    cards: &mut Cards<'a>,
) -> Result<Terminals<'a>, WordFault<'a>>
    ensures names { AreTerminals limits.now (word_of first.entry ∷ card_left cards.old) result }
    ensures cards { cards_left cards.new ≡ cards_left cards.old }
{
    let name = match check_name(limits, first) {
        Err(fault) => return Err(fault),
        Ok(word) => word,
    };
    let drain = match next_name(limits, first, cards) {
        Err(fault) => return Err(fault),
        Ok(word) => word,
    };
    let gate = match next_name(limits, first, cards) {
        Err(fault) => return Err(fault),
        Ok(word) => word,
    };
    let source = match next_name(limits, first, cards) {
        Err(fault) => return Err(fault),
        Ok(word) => word,
    };
    let _bulk = match next_name(limits, first, cards) {
        Err(fault) => return Err(fault),
        Ok(word) => word,
    };
    let model = match next_name(limits, first, cards) {
        Err(fault) => return Err(fault),
        Ok(word) => word,
    };
    Ok(Terminals {
        name,
        drain,
        gate,
        source,
        model,
    })
}

fn copied(alloc: Global, names: &Terminals<'_>) -> Result<Transistor, NoMemory>
    ensures { IfOk result (λ t. t ≡ transistor_by names.now) }
{
    Ok(Transistor {
        name: Text::from_bytes(alloc, names.name.bytes)?,
        drain: Text::from_bytes(alloc, names.drain.bytes)?,
        gate: Text::from_bytes(alloc, names.gate.bytes)?,
        source: Text::from_bytes(alloc, names.source.bytes)?,
        model: Text::from_bytes(alloc, names.model.bytes)?,
    })
}

/// The transistor of the card with this first word.
pub fn transistor<'a>(
    alloc: Global,
    limits: &Limits,
    first: Word<'a>,
    cards: &mut Cards<'a>,
) -> Result<Transistor, WordFault<'a>>
    ensures transistor { IsTransistor limits.now (word_of first.entry ∷ card_left cards.old) result }
    ensures cards { cards_left cards.new ≡ cards_left cards.old }
{
    match read_terminals(limits, first, cards) {
        Err(fault) => Err(fault),
        Ok(names) => match copied(alloc, &names) {
            Err(_) => Err(WordFault::NoMemory),
            Ok(transistor) => Ok(transistor),
        },
    }
}
