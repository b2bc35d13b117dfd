//! The words by which refused constructs are shown.
ghost use Rattle.std.specs.Prelude.{◌≡◌};
ghost use Rattle.file_rules.specs.Names as spec;

use crate::names::is_name;

fn is_graphic(byte: u8) -> bool
    ensures { result ≡ spec.is_graphic byte }
{
    33 <= byte && byte <= 126
}

fn are_graphic(word: &[u8]) -> bool
    ensures { result ≡ spec.are_graphic word.now }
{
    word.iter().all(|byte| is_graphic(*byte))
}

fn is_shown(word: &[u8]) -> bool
    ensures { result ≡ spec.is_shown word.now }
{
    0 < word.len() && word.len() <= 128 && are_graphic(word)
}

/// The word itself, or `wide` where it is empty, has more than 128 bytes or a byte that can't be shown.
pub fn shown_word(word: &[u8]) -> &[u8]
    ensures { result.now ≡ spec.shown_word word.now }
{
    if is_shown(word) { word } else { b"wide" }
}

/// A string's content where it is a name of up to 128 bytes, else `string`.
pub fn shown_string(string: &[u8]) -> &[u8]
    ensures { result.now ≡ spec.shown_string string.now }
{
    if is_name(string) && string.len() <= 128 {
        string
    } else {
        b"string"
    }
}
