//! Names, and words that should be names.
ghost use Rattle.std.specs.Prelude.{◌≡◌, ◌∷◌, ◌+◌, [], ℕ, IfOk, IsOk, MatchOption, MatchResult};
ghost use Rattle.cdl_cards.specs.Left.{card_left, cards_left, word_of};
ghost use Rattle.cdl_reader.specs.Words as words;
ghost use Rattle.cdl_reader.specs.Steps.{IsFault, IsNextName};

use cdl_cards::{Cards, Word};
use file_rules::{is_name, is_too_long};
use std::alloc::Global;
use text_scan::{Limits, NoMemory, Text};

/// What is wrong with a word that should be a name.
#[derive(Clone, Copy, Debug, Drop)]
pub enum WordFault<'a> {
    NoMemory,
    TooLong,
    /// This word is no name, or stands for one that isn't there.
    NoName(Word<'a>),
}

impl From<NoMemory> for WordFault<'_> {
    ghost use Rattle.cdl_reader.specs.declared.names.WordFault.TheVariants as faults;

    ghost from_gives = { λ _ fault. fault ≡ faults.NoMemory };

    fn from(_: NoMemory) -> Self {
        WordFault::NoMemory
    }
}

/// The word, if it is a name.
#[tactic(auto, unfolding(crate::specs::Words::fault_of))]
pub fn check_name<'a>(limits: &Limits, word: Word<'a>) -> Result<Word<'a>, WordFault<'a>>
    ensures { MatchResult result (λ w. (word_of w ≡ word_of word.entry) × (words.fault_of limits.now (word_of word.entry) ≡ None)) (λ f. IsFault f (words.fault_of limits.now (word_of word.entry))) }
{
    if is_too_long(limits, word.bytes) {
        return Err(WordFault::TooLong);
    }
    if is_name(word.bytes) {
        Ok(word)
    } else {
        Err(WordFault::NoName(word))
    }
}

/// The next word of a card with this first word, if it is a name.
pub fn next_name<'a>(
    limits: &Limits,
    first: Word<'a>,
    cards: &mut Cards<'a>,
) -> Result<Word<'a>, WordFault<'a>>
    ensures name { IsNextName limits.now (word_of first.entry) (card_left cards.old) (card_left cards.new) result }
    ensures cards { cards_left cards.new ≡ cards_left cards.old }
{
    match cards.next_word() {
        None => Err(WordFault::NoName(first)),
        Some(word) => check_name(limits, word),
    }
}

fn has_equals(bytes: &[u8]) -> bool
    ensures { result ≡ words.has_equals bytes.now }
{
    bytes.iter().any(|byte| *byte == b'=')
}

/// The next word of the card that has no `=`.
pub fn next_operand<'a>(cards: &mut Cards<'a>) -> Option<Word<'a>>
    ensures operand { MatchOption result (words.operands (card_left cards.old) ≡ []) (λ w. words.operands (card_left cards.old) ≡ word_of w ∷ words.operands (card_left cards.new)) }
    ensures cards { cards_left cards.new ≡ cards_left cards.old }
{
    'words: while let Some(word) = cards.next_word() {
        if !has_equals(word.bytes) {
            return Some(word);
        }
    }
    None
}
