//! Tests of bytes, and of what a text begins with.
ghost use Rattle.std.specs.Prelude.{◌≡◌};
ghost use Rattle.text_scan.specs.Bytes as spec;
ghost use Rattle.text_scan.specs.Pieces as pieces;

/// A space, a tab or a carriage return.
#[tactic(auto, unfolding(crate::specs::Bytes::is_blank))]
pub fn is_blank(byte: u8) -> bool
    ensures { result ≡ spec.is_blank byte }
{
    byte == b' ' || byte == b'\t' || byte == b'\r'
}

#[tactic(auto, unfolding(crate::specs::Bytes::is_space))]
pub(crate) fn is_space(byte: u8) -> bool
    ensures { result ≡ spec.is_space byte }
{
    byte == b' ' || byte == b'\t' || byte == b'\r' || byte == b'\n'
}

#[tactic(auto, unfolding(crate::specs::Bytes::is_liberty_sign))]
fn is_liberty_sign(byte: u8) -> bool
    ensures { result ≡ spec.is_liberty_sign byte }
{
    matches!(byte, b'(' | b')' | b'{' | b'}' | b';' | b':' | b',' | b'"')
}

#[tactic(auto, unfolding(crate::specs::Bytes::is_liberty_byte))]
pub(crate) fn is_liberty_byte(byte: u8) -> bool
    ensures { result ≡ spec.is_liberty_byte byte }
{
    33 <= byte && byte <= 126 && !is_liberty_sign(byte)
}

/// A decimal digit.
#[tactic(auto, unfolding(crate::specs::Bytes::is_digit))]
pub fn is_digit(byte: u8) -> bool
    ensures { result ≡ spec.is_digit byte }
{
    b'0' <= byte && byte <= b'9'
}

/// An ASCII letter or `_`.
#[tactic(auto, unfolding(crate::specs::Bytes::is_letter))]
pub fn is_letter(byte: u8) -> bool
    ensures { result ≡ spec.is_letter byte }
{
    (b'a' <= byte && byte <= b'z') || (b'A' <= byte && byte <= b'Z') || byte == b'_'
}

#[tactic(auto, unfolding(crate::specs::Bytes::is_identifier_byte))]
pub(crate) fn is_identifier_byte(byte: u8) -> bool
    ensures { result ≡ spec.is_identifier_byte byte }
{
    is_letter(byte) || is_digit(byte) || byte == b'$'
}

#[tactic(auto, unfolding(crate::specs::Bytes::is_number_byte))]
pub(crate) fn is_number_byte(byte: u8) -> bool
    ensures { result ≡ spec.is_number_byte byte }
{
    is_letter(byte) || is_digit(byte) || byte == b'.' || byte == b'\''
}

#[tactic(auto, unfolding(crate::specs::Bytes::begins_with, crate::specs::Bytes::begins_with_pair))]
pub(crate) fn begins_with_pair(first: u8, second: u8, text: &[u8]) -> bool
    ensures { result ≡ spec.begins_with_pair first second text.now }
{
    match text {
        [a, b, ..] => *a == first && *b == second,
        _ => false,
    }
}

#[tactic(auto, unfolding(crate::specs::Pieces::ends_liberty_word))]
pub(crate) fn ends_liberty_word(text: &[u8]) -> bool
    ensures { result ≡ pieces.ends_liberty_word text.now }
{
    match text {
        [] => true,
        [byte, ..] => {
            if is_liberty_byte(*byte) {
                begins_with_pair(b'/', b'*', text) || begins_with_pair(b'\\', b'\n', text)
            } else {
                true
            }
        }
    }
}

#[tactic(auto, unfolding(crate::specs::Pieces::begins_space))]
pub(crate) fn begins_space(text: &[u8]) -> bool
    ensures { result ≡ pieces.begins_space text.now }
{
    match text {
        [] => true,
        [byte, ..] => is_space(*byte),
    }
}

#[tactic(auto, unfolding(crate::specs::Pieces::ends_run))]
pub(crate) fn ends_identifier(text: &[u8]) -> bool
    ensures { result ≡ pieces.ends_run spec.is_identifier_byte text.now }
{
    match text {
        [] => true,
        [byte, ..] => !is_identifier_byte(*byte),
    }
}

#[tactic(auto, unfolding(crate::specs::Pieces::ends_run))]
pub(crate) fn ends_number(text: &[u8]) -> bool
    ensures { result ≡ pieces.ends_run spec.is_number_byte text.now }
{
    match text {
        [] => true,
        [byte, ..] => !is_number_byte(*byte),
    }
}

#[tactic(auto, unfolding(crate::specs::Pieces::ends_run))]
pub(crate) fn ends_blanks(text: &[u8]) -> bool
    ensures { result ≡ pieces.ends_run spec.is_blank text.now }
{
    match text {
        [] => true,
        [byte, ..] => !is_blank(*byte),
    }
}
