//! The public call.
ghost use Rattle.std.specs.Prelude.{◌≡◌, IfOk};
ghost use Rattle.grammar.specs.Answers.{IsAnswer, read_all};
ghost use Rattle.cdl_cards.specs.Cards.{cards_of};
ghost use Rattle.cdl_reader.specs.Grammar.{netlist, nothing};
ghost use Rattle.cdl_reader.specs.Told.{Answer, IsAnswered, told};
ghost use Rattle.file_rules.specs.Told.{Agrees};
ghost use Rattle.circuit.specs.Netlist.{IsNetlist};

use crate::ends::at_word;
use crate::reader::Reader;
use cdl_cards::{Cards, stray_word};
use circuit::Netlist;
use std::alloc::Global;
use text_scan::{FileRefusal, Limits};

fn read_cards(alloc: Global, text: &[u8], limits: &Limits) -> Result<Netlist, FileRefusal>
    ensures { Agrees result (told text.now (read_all (netlist limits.now) nothing (cards_of text.now))) }
{
    if let Some(word) = stray_word(text) {
        return Err(at_word(word));
    }
    let mut cards = Cards::new(text);
    let mut reader = Reader::new(alloc);
    'cards: while let Some(first) = cards.next_card() {
        if let Err(refusal) = reader.take(alloc, limits, first, &mut cards) {
            return Err(refusal);
        }
    }
    reader.into_netlist(text, limits)
}

/// Reads the text of a netlist within these limits.
///
/// The answer is the one that the grammar gives the text: its subcircuits, each whole or refused with a card's word and
/// line, where the text is a list of them and of other cards, else the first thing for which the file is refused. Only
/// want of memory is not told by the definition.
pub fn read_netlist(alloc: Global, text: &[u8], limits: &Limits) -> Result<Netlist, FileRefusal>
    // There is an answer to the text, and this is it.
    ensures answered { IsAnswered text.now limits.now result }
    // No other answer is there: whatever the grammar gives the text is told.
    ensures only { (o : Answer) → IsAnswer (netlist limits.now) nothing (cards_of text.now) o → Agrees result (told text.now o) }
    // What is kept has names, and nothing twice.
    ensures kept { IfOk result (λ netlist. IsNetlist limits.now netlist) }
{
    read_cards(alloc, text, limits)
}
