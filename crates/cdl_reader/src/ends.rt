//! How subcircuits begin and end.
ghost use Rattle.std.specs.Prelude.{◌≡◌, ◌∷◌, [], IfOk, Option};
ghost use Rattle.cdl_cards.specs.Left.{card_left, cards_left, word_of};
ghost use Rattle.cdl_cards.specs.Words.{PlacedWord};
ghost use Rattle.cdl_reader.specs.Actions as spec;
ghost use Rattle.cdl_reader.specs.Grammar as grammar;
ghost use Rattle.cdl_reader.specs.Steps.{IsFault, Unless, is_named};
ghost use Rattle.file_rules.specs.Told.{TellsSome};
ghost use Rattle.file_rules.specs.Told.{Steps};
ghost use Rattle.cdl_reader.specs.Words.{Fault, operands};

use crate::names::{WordFault, check_name, next_operand};
use crate::part::Part;
use crate::parts::Parts;
use cdl_cards::{Cards, Word};
use file_rules::too_many;
use name_index::Names;
use std::alloc::Global;
use std::mem;
use text_scan::{FileRefusal, Items, LimitKind, Limits, Text};

/// Syntax at the word.
pub fn at_word(word: Word<'_>) -> FileRefusal
    ensures { result ≡ spec.at_word (word_of word.entry) }
{
    FileRefusal::Syntax {
        line: word.line,
        column: word.column,
    }
}

// What is told of the fault.
fn refusal_by(limits: &Limits, fault: WordFault<'_>) -> FileRefusal
    ensures { (o : Option Fault) → IsFault fault.entry o → TellsSome result (spec.refusal_by limits.now o) }
{
    match fault {
        WordFault::NoMemory => FileRefusal::NoMemory,
        WordFault::TooLong => too_many(limits, LimitKind::Name),
        WordFault::NoName(word) => at_word(word),
    }
}

fn double_name(alloc: Global, word: Word<'_>) -> FileRefusal
    ensures { TellsSome result (Some (spec.double_name (word_of word.entry))) }
{
    match Text::from_bytes(alloc, word.bytes) {
        Ok(name) => FileRefusal::DoubleName {
            name,
            line: word.line,
        },
        Err(_) => FileRefusal::NoMemory,
    }
}

// The words behind the one that ends a subcircuit.
fn check_end(limits: &Limits, cards: &mut Cards<'_>) -> Result<(), FileRefusal>
    ensures end { Unless result (spec.end_refusal limits.now (card_left cards.old)) }
    ensures cards { cards_left cards.new ≡ cards_left cards.old }
{
    let Some(word) = cards.next_word() else {
        return Ok(());
    };
    if let Err(fault) = check_name(limits, word) {
        return Err(refusal_by(limits, fault));
    }
    match cards.next_word() {
        None => Ok(()),
        Some(more) => Err(at_word(more)),
    }
}

impl Parts {
    pub fn new(alloc: Global) -> Parts
        ensures { result ≡ grammar.nothing }
    {
        Parts {
            names: Names::new(alloc),
            parts: Items::new(alloc),
            part: Part::none(alloc),
        }
    }

    // Whether the word can name a subcircuit.
    fn check_new_name(
        &self,
        alloc: Global,
        limits: &Limits,
        word: Word<'_>,
    ) -> Result<(), FileRefusal>
        ensures { Unless result (spec.name_refusal limits.now self.now.names (word_of word.entry)) }
    {
        if let Err(fault) = check_name(limits, word) {
            return Err(refusal_by(limits, fault));
        }
        if self.names.contains(word.bytes) {
            return Err(double_name(alloc, word));
        }
        Ok(())
    }

    // Begins a subcircuit with this name.
    fn begin_named<'a>(
        &mut self,
        alloc: Global,
        limits: &Limits,
        name: Word<'a>,
        cards: &mut Cards<'a>,
    ) -> Result<(), FileRefusal>
        ensures begun { Steps result self.new (spec.opened limits.now self.old (word_of name.entry ∷ operands (card_left cards.old))) }
        ensures cards { cards_left cards.new ≡ cards_left cards.old }
    {
        if let Err(refusal) = self.check_new_name(alloc, limits, name) {
            return Err(refusal);
        }
        self.names.push(alloc, name.bytes)?;
        let text = Text::from_bytes(alloc, name.bytes)?;
        match Part::begin(alloc, limits, text, cards) {
            Err(refusal) => Err(refusal),
            Ok(part) => {
                self.part = part;
                Ok(())
            }
        }
    }

    /// Begins the subcircuit whose first card has these words left behind its first, whatever that is, and tells
    /// whether it has a name.
    pub fn begin(
        &mut self,
        alloc: Global,
        limits: &Limits,
        cards: &mut Cards<'_>,
    ) -> Result<bool, FileRefusal>
        ensures begun { (first : PlacedWord) → Steps result self.new (spec.begin limits.now (first ∷ card_left cards.old) self.old) }
        ensures named { IfOk result (λ named. named ≡ is_named (operands (card_left cards.old))) }
        ensures cards { cards_left cards.new ≡ cards_left cards.old }
    {
        if limits.cells as usize <= self.parts.len() {
            return Err(too_many(limits, LimitKind::Cells));
        }
        match next_operand(cards) {
            None => Ok(false),
            Some(name) => match self.begin_named(alloc, limits, name, cards) {
                Err(refusal) => Err(refusal),
                Ok(()) => Ok(true),
            },
        }
    }

    /// Enters a card of the open subcircuit.
    pub fn enter<'a>(
        &mut self,
        alloc: Global,
        limits: &Limits,
        first: Word<'a>,
        cards: &mut Cards<'a>,
    ) -> Result<(), FileRefusal>
        ensures entered { Steps result self.new (spec.enter limits.now (word_of first.entry ∷ card_left cards.old) self.old) }
        ensures cards { cards_left cards.new ≡ cards_left cards.old }
    {
        self.part.enter(alloc, limits, first, cards)
    }

    /// Ends the open subcircuit, whose last card has these words left behind its first, whatever that is.
    pub fn close(
        &mut self,
        alloc: Global,
        limits: &Limits,
        cards: &mut Cards<'_>,
    ) -> Result<(), FileRefusal>
        ensures closed { (first : PlacedWord) → Steps result self.new (spec.close limits.now (first ∷ card_left cards.old) self.old) }
        ensures cards { cards_left cards.new ≡ cards_left cards.old }
    {
        if let Err(refusal) = check_end(limits, cards) {
            return Err(refusal);
        }
        let part = mem::replace(&mut self.part, Part::none(alloc));
        self.parts.push(part.made(alloc)?)?;
        Ok(())
    }
}
