//! Cutting a text into lines and a line into words.
ghost use Rattle.std.specs.Prelude.{◌≡◌, ◌∷◌, [], drop, MatchOption};
ghost use Rattle.text_scan.specs.Bytes.{until, begins_with};
ghost use Rattle.cdl_cards.specs.Lines as spec;
ghost use Rattle.cdl_cards.specs.Kinds as kinds;
ghost use Rattle.cdl_cards.specs.Words.{blanks, column_of, words};
ghost use Rattle.cdl_cards.specs.Left.{Took, lines_left, word_of, words_left};

use crate::kinds::{LineKind, kind_by};
use crate::line::{Line, Lines, Word};
use crate::search::{begins_with, until_line_end, until_space, until_word};

// What follows the line of this size, and the LF that ends it.
#[tactic(auto, using(crate::proofs::LineEnds::after_last))]
fn after_line(text: &[u8], size: usize) -> &[u8]
    requires { size ≡ until (begins_with 10) text.now }
    ensures { result.now ≡ spec.after_line text.now }
{
    if size < text.len() {
        &text[size + 1..]
    } else {
        &text[text.len()..]
    }
}

// The text behind its blanks.
fn from_word(text: &[u8]) -> &[u8]
    ensures { result.now ≡ drop (blanks text.now) text.now }
{
    &text[until_word(text)..]
}

fn behind_first(text: &[u8]) -> &[u8]
    ensures { result.now ≡ drop 1 text.now }
{
    match text {
        [] => text,
        [_, more @ ..] => more,
    }
}

// The column of the first of the bytes that are left of so many.
fn column_of(size: usize, left: usize) -> u32
    ensures { result ≡ column_of size left }
{
    let before = u32::try_from(size.saturating_sub(left)).unwrap_or(u32::MAX);
    before.saturating_add(1)
}

impl<'a> Lines<'a> {
    /// The first line; the others are left.
    pub(crate) fn next_line(&mut self) -> Option<Line<'a>>
        ensures { MatchOption result (lines_left self.old ≡ []) (λ line. Took self.old self.new line) }
    {
        let text = self.text;
        if text.is_empty() {
            return None;
        }
        let size = until_line_end(text);
        let line = Line {
            rest: &text[..size],
            size,
            number: self.number,
        };
        self.text = after_line(text, size);
        self.number = self.number.saturating_add(1);
        Some(line)
    }
}

impl<'a> Line<'a> {
    // The next word, whatever it begins with.
    fn cut_word(&mut self) -> Option<Word<'a>>
        ensures { MatchOption result (words_left self.old ≡ []) (λ w. words_left self.old ≡ word_of w ∷ words_left self.new) }
    {
        let text = from_word(self.rest);
        match text {
            [] => None,
            [_, more @ ..] => {
                let n = until_space(more);
                self.rest = &more[n..];
                Some(Word {
                    bytes: &text[..n + 1],
                    line: self.number,
                    column: column_of(self.size, text.len()),
                })
            }
        }
    }

    /// The next word that belongs to the card.
    pub(crate) fn next_word(&mut self) -> Option<Word<'a>>
        ensures { MatchOption result (kinds.shown (words_left self.old) ≡ []) (λ w. kinds.shown (words_left self.old) ≡ word_of w ∷ kinds.shown (words_left self.new)) }
    {
        match self.cut_word() {
            None => None,
            Some(word) => {
                if begins_with(b'$', word.bytes) {
                    self.rest = &[];
                    return None;
                }
                Some(word)
            }
        }
    }

    pub(crate) fn kind(self) -> LineKind
        ensures { result ≡ kinds.kind_of_words (words_left self.entry) }
    {
        let mut ahead = self;
        match ahead.cut_word() {
            None => LineKind::Passed,
            Some(word) => kind_by(word.bytes),
        }
    }

    /// The line behind its first byte that is no blank.
    pub(crate) fn after_first(self) -> Line<'a>
        ensures { words_left result ≡ words self.entry.number self.entry.size 0 (kinds.after_first self.entry.rest.now) }
    {
        Line {
            rest: behind_first(from_word(self.rest)),
            size: self.size,
            number: self.number,
        }
    }
}
