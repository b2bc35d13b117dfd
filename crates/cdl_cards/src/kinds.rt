//! What a line's first word makes of it.
ghost use Rattle.std.specs.Prelude.{◌≡◌};
ghost use Rattle.cdl_cards.specs.Kinds as spec;

use crate::search::begins_with;

/// What a line is for the cards of its text.
#[derive(Clone, Copy, Debug, PartialEq, Eq)]
pub(crate) enum LineKind {
    /// Empty, or a comment.
    Passed,
    /// It goes on with the card before it.
    More,
    /// It begins a card.
    Card,
}

/// Whether the words are the same but for the case of ASCII letters.
pub fn is_same_word(a: &[u8], b: &[u8]) -> bool
    ensures { result ≡ spec.is_same_word a.now b.now }
{
    a.eq_ignore_ascii_case(b)
}

/// Whether the word is that of a card that tells of pins.
#[tactic(auto, unfolding(crate::specs::Kinds::is_pin_info))]
pub fn is_pin_info(word: &[u8]) -> bool
    ensures { result ≡ spec.is_pin_info word.now }
{
    is_same_word(word, b"*.PININFO")
}

#[tactic(auto, unfolding(crate::specs::Kinds::kind_by))]
pub(crate) fn kind_by(word: &[u8]) -> LineKind
    ensures { result ≡ spec.kind_by word.now }
{
    if begins_with(b'$', word) {
        LineKind::Passed
    } else if begins_with(b'+', word) {
        LineKind::More
    } else if begins_with(b'*', word) {
        if is_pin_info(word) {
            LineKind::Card
        } else {
            LineKind::Passed
        }
    } else {
        LineKind::Card
    }
}
