//! What a reader does at a card.
ghost use Rattle.std.specs.Prelude.{◌≡◌, ◌∷◌, []};
ghost use Rattle.text_scan.specs.Tokens.{after, start};
ghost use Rattle.cdl_cards.specs.Left.{card_left, cards_left, word_of};
ghost use Rattle.cdl_reader.specs.Grammar.{nothing};
ghost use Rattle.cdl_reader.specs.Steps as spec;
ghost use Rattle.cdl_reader.specs.Told.{at_place, told};
ghost use Rattle.file_rules.specs.Told.{Steps};
ghost use Rattle.cdl_reader.specs.Words.{kind_of_word};
ghost use Rattle.cdl_reader.specs.declared.reader.Phase.TheVariants as phases;

use crate::ends::at_word;
use crate::kinds::{CardKind, kind_of_word};
use crate::parts::Parts;
use crate::reader::{Phase, Reader};
use cdl_cards::{Cards, Word, end_of};
use circuit::Netlist;
use std::alloc::Global;
use text_scan::{FileRefusal, Limits};

// Syntax at the place after the last byte.
fn at_end(text: &[u8]) -> FileRefusal
    ensures { result ≡ at_place (after start text.now) }
{
    let end = end_of(text);
    FileRefusal::Syntax {
        line: end.line,
        column: end.column,
    }
}

impl Reader {
    pub fn new(alloc: Global) -> Reader
        ensures phase { result.phase ≡ phases.Outside }
        ensures parts { result.parts ≡ nothing }
    {
        Reader {
            phase: Phase::Outside,
            parts: Parts::new(alloc),
        }
    }

    fn take_outside<'a>(
        &mut self,
        alloc: Global,
        limits: &Limits,
        first: Word<'a>,
        cards: &mut Cards<'a>,
    ) -> Result<(), FileRefusal>
        ensures taken { Steps result self.new (spec.taken_outside limits.now (kind_of_word first.entry.bytes.now) (word_of first.entry ∷ card_left cards.old) self.old) }
        ensures cards { cards_left cards.new ≡ cards_left cards.old }
    {
        match kind_of_word(first.bytes) {
            CardKind::Begin => match self.parts.begin(alloc, limits, cards) {
                Err(refusal) => Err(refusal),
                Ok(named) => {
                    self.phase = if named {
                        Phase::Inside
                    } else {
                        Phase::Nameless
                    };
                    Ok(())
                }
            },
            CardKind::End | CardKind::Stray => Err(at_word(first)),
            _ => Ok(()),
        }
    }

    fn take_inside<'a>(
        &mut self,
        alloc: Global,
        limits: &Limits,
        first: Word<'a>,
        cards: &mut Cards<'a>,
    ) -> Result<(), FileRefusal>
        ensures taken { Steps result self.new (spec.taken_inside limits.now (kind_of_word first.entry.bytes.now) (word_of first.entry ∷ card_left cards.old) self.old) }
        ensures cards { cards_left cards.new ≡ cards_left cards.old }
    {
        match kind_of_word(first.bytes) {
            CardKind::Begin | CardKind::Stray => Err(at_word(first)),
            CardKind::End => match self.parts.close(alloc, limits, cards) {
                Err(refusal) => Err(refusal),
                Ok(()) => {
                    self.phase = Phase::Outside;
                    Ok(())
                }
            },
            _ => {
                self.phase = Phase::Inside;
                self.parts.enter(alloc, limits, first, cards)
            }
        }
    }

    /// Takes the card with this first word.
    pub fn take<'a>(
        &mut self,
        alloc: Global,
        limits: &Limits,
        first: Word<'a>,
        cards: &mut Cards<'a>,
    ) -> Result<(), FileRefusal>
        ensures taken { Steps result self.new (spec.taken limits.now (word_of first.entry ∷ card_left cards.old) self.old) }
        ensures cards { cards_left cards.new ≡ cards_left cards.old }
    {
        match self.phase {
            Phase::Outside => self.take_outside(alloc, limits, first, cards),
            Phase::Inside => self.take_inside(alloc, limits, first, cards),
            Phase::Nameless => Err(at_word(first)),
        }
    }

    /// The netlist of a text that ends here.
    pub fn into_netlist(self, text: &[u8], limits: &Limits) -> Result<Netlist, FileRefusal>
        ensures { result ≡ told text.now (spec.reads limits.now self []) }
    {
        let Reader { phase, parts } = self;
        match phase {
            Phase::Outside => {
                let Parts {
                    names: _,
                    parts,
                    part: _,
                } = parts;
                Ok(Netlist { parts })
            }
            _ => Err(at_end(text)),
        }
    }
}
