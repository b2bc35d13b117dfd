//! What cards add to a subcircuit.
ghost use Rattle.std.specs.Prelude.{◌≡◌, ◌∷◌, [], IfOk, Option};
ghost use Rattle.cdl_cards.specs.Left.{card_left, cards_left, word_of};
ghost use Rattle.cdl_reader.specs.Actions as spec;
ghost use Rattle.cdl_reader.specs.Parts as parts;
ghost use Rattle.cdl_reader.specs.Steps.{ArePins, IsFault};
ghost use Rattle.file_rules.specs.Told.{Agrees, Steps};
ghost use Rattle.cdl_reader.specs.Words.{Fault, operands};
ghost use Rattle.cdl_reader.specs.declared.part.Part.{Part as PartData};

use crate::kinds::{CardKind, kind_of_word};
use crate::names::{WordFault, check_name, next_operand};
use crate::part::{Construct, Part};
use crate::pins::{directed, tell};
use crate::transistors::transistor;
use cdl_cards::{Cards, Word};
use circuit::{Subcircuit, SubcircuitPart};
use file_rules::{shown_word, too_many};
use std::alloc::Global;
use text_scan::{FileRefusal, Items, LimitKind, Limits, NoMemory, Text};

// The pins of a card whose name was read.
fn read_pins<'a>(
    alloc: Global,
    limits: &Limits,
    cards: &mut Cards<'a>,
) -> Result<Items<Text>, WordFault<'a>>
    ensures pins { ArePins limits.now (operands (card_left cards.old)) result }
    ensures cards { cards_left cards.new ≡ cards_left cards.old }
{
    let mut pins = Items::new(alloc);
    'pins: while let Some(word) = next_operand(cards) {
        match check_name(limits, word) {
            Err(fault) => return Err(fault),
            Ok(pin) => pins.push(Text::from_bytes(alloc, pin.bytes)?)?,
        }
    }
    Ok(pins)
}

impl Part {
    /// Of no subcircuit.
    pub fn none(alloc: Global) -> Part
        ensures { result ≡ parts.no_part }
    {
        Part::named(alloc, Text::from_vec(Vec::new(alloc)))
    }

    // Of a subcircuit with this name.
    fn named(alloc: Global, name: Text) -> Part
        ensures { result ≡ spec.named_part name }
    {
        Part {
            name,
            pins: Items::new(alloc),
            told: Items::new(alloc),
            transistors: Items::new(alloc),
            refusal: None,
        }
    }

    // Refuses it with this word.
    fn refuse(&mut self, alloc: Global, word: Word<'_>) -> Result<(), NoMemory>
        ensures { IfOk result (λ u. self.new ≡ parts.refused_at (word_of word.entry) self.old) }
    {
        self.refusal = Some(Construct {
            card: Text::from_bytes(alloc, shown_word(word.bytes))?,
            line: word.line,
        });
        Ok(())
    }

    // Refuses it, or the file, where a name has this fault.
    fn fail(
        &mut self,
        alloc: Global,
        limits: &Limits,
        fault: WordFault<'_>,
    ) -> Result<(), FileRefusal>
        ensures { (o : Option Fault) → (whole : PartData) → IsFault fault.entry o → Steps result self.new (spec.adds limits.now o whole self.old) }
    {
        match fault {
            WordFault::NoMemory => Err(FileRefusal::NoMemory),
            WordFault::TooLong => Err(too_many(limits, LimitKind::Name)),
            WordFault::NoName(word) => match self.refuse(alloc, word) {
                Err(_) => Err(FileRefusal::NoMemory),
                Ok(()) => Ok(()),
            },
        }
    }

    /// Of the subcircuit with this name, whose pins are the words that are left of the card.
    pub fn begin(
        alloc: Global,
        limits: &Limits,
        name: Text,
        cards: &mut Cards<'_>,
    ) -> Result<Part, FileRefusal>
        ensures part { Agrees result (spec.begun_part limits.now name (operands (card_left cards.old))) }
        ensures cards { cards_left cards.new ≡ cards_left cards.old }
    {
        let mut part = Part::named(alloc, name);
        match read_pins(alloc, limits, cards) {
            Ok(pins) => {
                part.pins = pins;
                Ok(part)
            }
            Err(fault) => match part.fail(alloc, limits, fault) {
                Err(refusal) => Err(refusal),
                Ok(()) => Ok(part),
            },
        }
    }

    // Adds the transistor of the card with this first word.
    fn add_transistor<'a>(
        &mut self,
        alloc: Global,
        limits: &Limits,
        first: Word<'a>,
        cards: &mut Cards<'a>,
    ) -> Result<(), FileRefusal>
        ensures added { let card = word_of first.entry ∷ card_left cards.old in Steps result self.new (spec.adds limits.now (spec.fault_of_transistor limits.now card) (parts.with_transistor (parts.transistor_of card) self.old) self.old) }
        ensures cards { cards_left cards.new ≡ cards_left cards.old }
    {
        match transistor(alloc, limits, first, cards) {
            Err(fault) => self.fail(alloc, limits, fault),
            Ok(whole) => match self.transistors.push(whole) {
                Err(_) => Err(FileRefusal::NoMemory),
                Ok(()) => Ok(()),
            },
        }
    }

    /// Enters the card with this first word.
    pub fn enter<'a>(
        &mut self,
        alloc: Global,
        limits: &Limits,
        first: Word<'a>,
        cards: &mut Cards<'a>,
    ) -> Result<(), FileRefusal>
        ensures entered { Steps result self.new (spec.enter_part limits.now (word_of first.entry ∷ card_left cards.old) self.old) }
        ensures cards { cards_left cards.new ≡ cards_left cards.old }
    {
        if self.refusal.is_some() {
            return Ok(());
        }
        match kind_of_word(first.bytes) {
            CardKind::Transistor => self.add_transistor(alloc, limits, first, cards),
            CardKind::Capacitor => Ok(()),
            CardKind::PinInfo => match tell(alloc, cards, &mut self.told) {
                Err(_) => Err(FileRefusal::NoMemory),
                Ok(()) => Ok(()),
            },
            _ => match self.refuse(alloc, first) {
                Err(_) => Err(FileRefusal::NoMemory),
                Ok(()) => Ok(()),
            },
        }
    }

    /// The subcircuit that was read.
    pub fn made(self, alloc: Global) -> Result<SubcircuitPart, NoMemory>
        ensures { IfOk result (λ p. p ≡ parts.made self) }
    {
        let Part {
            name,
            pins,
            told,
            transistors,
            refusal,
        } = self;
        match refusal {
            Some(Construct { card, line }) => Ok(SubcircuitPart::Refused { name, card, line }),
            None => Ok(SubcircuitPart::Whole(Subcircuit {
                name,
                pins: directed(alloc, told.as_slice(), pins.as_slice())?,
                transistors,
            })),
        }
    }
}
