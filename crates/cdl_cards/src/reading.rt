//! Reading a text card by card.
ghost use Rattle.std.specs.Prelude.{◌≡◌, ◌<◌, ◌∷◌, ◌++◌, [], length, MatchOption, IfSome};
ghost use Rattle.cdl_cards.specs.Cards as spec;
ghost use Rattle.cdl_cards.specs.Kinds.{kind_of_words, shown};
ghost use Rattle.cdl_cards.specs.Lines.{lines};
ghost use Rattle.cdl_cards.specs.Left.{IsStray, card_left, cards_left, going_left, begun_left, stray_left, lines_left, word_of, words_left};
ghost use Rattle.cdl_cards.specs.declared.kinds.LineKind.TheVariants as kinds;

use crate::cards::Cards;
use crate::kinds::LineKind;
use crate::line::{Line, Lines, Word};

impl<'a> Lines<'a> {
    fn of(text: &'a [u8]) -> Lines<'a>
        ensures { (lines_left result ≡ lines text.now) × (result.number ≡ 1) }
    {
        Lines { text, number: 1 }
    }

    // What goes on with the card before these lines in the next of them that does.
    fn next_more(&mut self) -> Option<Line<'a>>
        ensures cards { begun_left self.new ≡ begun_left self.old }
        ensures more { MatchOption result (going_left self.old ≡ []) (λ line. going_left self.old ≡ shown (words_left line) ++ going_left self.new) }
        ensures shorter { IfSome result (λ line. length self.new.text.now < length self.old.text.now) }
    {
        let mut after = *self;
        'lines: while let Some(line) = after.next_line() {
            match line.kind() {
                LineKind::Passed => *self = after,
                LineKind::More => {
                    *self = after;
                    return Some(line.after_first());
                }
                LineKind::Card => return None,
            }
        }
        None
    }

    // The next line that begins a card.
    fn next_begun(&mut self) -> Option<Line<'a>>
        ensures card { MatchOption result (begun_left self.old ≡ []) (λ line. begun_left self.old ≡ (shown (words_left line) ++ going_left self.new) ∷ begun_left self.new) }
        ensures kind { IfSome result (λ line. kind_of_words (words_left line) ≡ kinds.Card) }
    {
        'lines: while let Some(line) = self.next_line() {
            if let LineKind::Card = line.kind() {
                return Some(line);
            }
        }
        None
    }

    // The next line that isn't passed over, if it goes on with a card.
    fn next_stray(mut self) -> Option<Line<'a>>
        ensures stray { MatchOption result (stray_left self.entry ≡ []) (λ line. stray_left self.entry ≡ shown (words_left line) ∷ []) }
        ensures kind { IfSome result (λ line. kind_of_words (words_left line) ≡ kinds.More) }
    {
        'lines: while let Some(line) = self.next_line() {
            match line.kind() {
                LineKind::Passed => {}
                LineKind::More => return Some(line),
                LineKind::Card => return None,
            }
        }
        None
    }
}

/// The first word of a line that goes on with a card, where no card stands before it.
pub fn stray_word(text: &[u8]) -> Option<Word<'_>>
    ensures { MatchOption result (spec.stray 1 (lines text.now) ≡ []) (λ w. IsStray w (spec.stray 1 (lines text.now))) }
{
    match Lines::of(text).next_stray() {
        None => None,
        Some(line) => {
            let mut line = line;
            line.next_word()
        }
    }
}

impl<'a> Cards<'a> {
    /// Stands before the first card.
    pub fn new(text: &'a [u8]) -> Cards<'a>
        ensures { spec.stray 1 (lines text.now) ++ cards_left result ≡ spec.cards_of text.now }
    {
        Cards {
            line: Line {
                rest: &[],
                size: 0,
                number: 1,
            },
            lines: Lines::of(text),
        }
    }

    /// The first word of the next card; the words that are left of this one are passed over.
    pub fn next_card(&mut self) -> Option<Word<'a>>
        ensures { MatchOption result (cards_left self.old ≡ []) (λ w. cards_left self.old ≡ (word_of w ∷ card_left self.new) ∷ cards_left self.new) }
    {
        match self.lines.next_begun() {
            None => None,
            Some(line) => {
                self.line = line;
                self.line.next_word()
            }
        }
    }

    /// The next word of the card that was begun last.
    pub fn next_word(&mut self) -> Option<Word<'a>>
        ensures word { MatchOption result (card_left self.old ≡ []) (λ w. card_left self.old ≡ word_of w ∷ card_left self.new) }
        ensures cards { cards_left self.new ≡ cards_left self.old }
    {
        'lines: loop {
            if let Some(word) = self.line.next_word() {
                return Some(word);
            }
            match self.lines.next_more() {
                None => return None,
                Some(line) => self.line = line,
            }
        }
    }
}
