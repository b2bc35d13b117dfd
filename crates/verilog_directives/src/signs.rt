//! What a token of Verilog is for its directives.
ghost use Rattle.std.specs.Prelude.{◌≡◌};
ghost use Rattle.std.specs.Option.{option_copied};
ghost use Rattle.text_scan.specs.Left.{IsSliceOf, is_end as spec_is_end};
ghost use Rattle.verilog_directives.specs.Signs as spec;

use crate::word::is_reserved;
use text_scan::{Kind, Token};

/// Whether this is the text's end.
pub(crate) fn is_end(kind: Kind) -> bool
    ensures { result ≡ spec_is_end kind }
{
    match kind {
        Kind::End => true,
        Kind::Word | Kind::Str | Kind::Sign | Kind::Unfinished | Kind::LineEnd => false,
    }
}

fn is_sign(bytes: &[u8]) -> bool
    ensures { result ≡ spec.is_sign bytes.now }
{
    match bytes {
        [] => false,
        [byte, ..] => 33 <= *byte && *byte <= 126,
    }
}

/// Whether the token is wrong wherever it stands: a string or a comment without an end, or a byte that is no sign.
#[tactic(auto, unfolding(crate::specs::Signs::is_wrong))]
pub(crate) fn is_wrong(source: &[u8], token: Token) -> bool
    requires { IsSliceOf source.now token }
    ensures { result ≡ spec.is_wrong source.now token }
{
    match token.kind {
        Kind::Unfinished => true,
        Kind::Sign => !is_sign(token.text(source)),
        Kind::Word | Kind::Str | Kind::LineEnd | Kind::End => false,
    }
}

/// Whether the token is the `` ` `` of a directive or a macro.
#[tactic(auto, unfolding(crate::specs::Signs::is_mark))]
pub(crate) fn is_mark(source: &[u8], token: Token) -> bool
    requires { IsSliceOf source.now token }
    ensures { result ≡ spec.is_mark source.now token }
{
    match token.kind {
        Kind::Sign => token.text(source) == b"`".as_slice(),
        Kind::Word | Kind::Str | Kind::Unfinished | Kind::LineEnd | Kind::End => false,
    }
}

/// Whether the token is a word.
pub(crate) fn is_word(kind: Kind) -> bool
    ensures { result ≡ spec.is_word kind }
{
    match kind {
        Kind::Word => true,
        Kind::Str | Kind::Sign | Kind::Unfinished | Kind::LineEnd | Kind::End => false,
    }
}

/// Whether the token is a `\` alone.
#[tactic(auto, unfolding(crate::specs::Signs::is_lone))]
pub(crate) fn is_lone(source: &[u8], token: Token) -> bool
    requires { IsSliceOf source.now token }
    ensures { result ≡ spec.is_lone source.now token }
{
    is_word(token.kind) && token.text(source) == b"\\".as_slice()
}

/// The bytes of a word that touches the `` ` ``, and else no bytes.
#[tactic(auto, unfolding(crate::specs::Signs::word_after))]
pub(crate) fn word_after<'s>(source: &'s [u8], mark: Token, token: Token) -> &'s [u8]
    requires { IsSliceOf source.now token }
    ensures { result.now ≡ spec.word_after source.now mark token }
{
    if is_word(token.kind) && token.span.start == mark.span.end {
        token.text(source)
    } else {
        &[]
    }
}

fn escaped_name(bytes: &[u8]) -> Option<&[u8]>
    ensures { option_copied result ≡ spec.escaped_name bytes.now }
{
    match bytes {
        [] => None,
        [_, ..] => Some(bytes),
    }
}

/// The name of a word that is an identifier (IEEE 1364-2005, 3.7), of an escaped one without its `\`. A number is
/// none, nor is a `\` alone or a word of the grammar's own.
#[tactic(auto, unfolding(crate::specs::Signs::name_in))]
pub fn name_in(word: &[u8]) -> Option<&[u8]>
    ensures { option_copied result ≡ spec.name_in word.now }
{
    match word {
        [] => None,
        [b'\\', rest @ ..] => escaped_name(rest),
        [first, ..] => {
            if first.is_ascii_digit() || is_reserved(word) {
                None
            } else {
                Some(word)
            }
        }
    }
}

/// The name of a token that is an identifier.
#[tactic(auto, unfolding(crate::specs::Signs::name_of))]
pub(crate) fn name_of<'s>(source: &'s [u8], token: Token) -> Option<&'s [u8]>
    requires { IsSliceOf source.now token }
    ensures { option_copied result ≡ spec.name_of source.now token }
{
    if is_word(token.kind) {
        name_in(token.text(source))
    } else {
        None
    }
}
