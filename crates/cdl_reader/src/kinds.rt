//! What a card is by its first word.
ghost use Rattle.std.specs.Prelude.{◌≡◌};
ghost use Rattle.cdl_cards.specs.Kinds.{is_pin_info};
ghost use Rattle.cdl_reader.specs.Words as spec;

use cdl_cards::{begins_with, is_pin_info, is_same_word};

#[derive(Clone, Copy, Debug, PartialEq, Eq)]
pub enum CardKind {
    /// `.SUBCKT`
    Begin,
    /// `.ENDS`
    End,
    Transistor,
    Capacitor,
    /// `*.PININFO`
    PinInfo,
    /// A line that goes on with a card, where there is none.
    Stray,
    Other,
}

#[tactic(auto, unfolding(crate::specs::Words::kind_of_word))]
pub fn kind_of_word(word: &[u8]) -> CardKind
    ensures { result ≡ spec.kind_of_word word.now }
{
    if begins_with(b'M', word) || begins_with(b'm', word) {
        CardKind::Transistor
    } else if begins_with(b'C', word) || begins_with(b'c', word) {
        CardKind::Capacitor
    } else if begins_with(b'+', word) {
        CardKind::Stray
    } else if is_same_word(word, b".SUBCKT") {
        CardKind::Begin
    } else if is_same_word(word, b".ENDS") {
        CardKind::End
    } else if is_pin_info(word) {
        CardKind::PinInfo
    } else {
        CardKind::Other
    }
}
