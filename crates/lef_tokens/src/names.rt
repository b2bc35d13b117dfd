//! The bytes of tokens, names, and how refused constructs are shown.
ghost use Rattle.std.specs.Prelude.{◌≡◌, IfOk};
ghost use Rattle.lef_tokens.specs.Looks as spec;

use file_rules::{is_name, is_too_long, shown_string, shown_word, slice};
use std::alloc::Global;
use text_scan::{Kind, Limits, NoMemory, Text, Token};

/// The token's bytes.
#[tactic(auto, unfolding(crate::specs::Looks::text))]
pub fn text(source: &[u8], token: Token) -> &[u8]
    ensures { result.now ≡ spec.text source.now token }
{
    slice(source, token.span.start, token.span.end)
}

/// Whether the token is a word or a string, which may be passed over.
pub fn is_passed(token: Token) -> bool
    ensures { result ≡ spec.is_passed token }
{
    matches!(token.kind, Kind::Word | Kind::Str)
}

/// Whether the token is a word.
pub fn is_word(token: Token) -> bool
    ensures { result ≡ spec.is_word_kind token.kind }
{
    matches!(token.kind, Kind::Word)
}

/// Whether the token is a word that is a name, or longer than a name may be.
#[tactic(auto, unfolding(crate::specs::Looks::can_name))]
pub fn can_name(source: &[u8], limits: &Limits, token: Token) -> bool
    ensures { result ≡ spec.can_name source.now limits.now token }
{
    is_word(token) && (is_too_long(limits, text(source, token)) || is_name(text(source, token)))
}

#[tactic(auto, unfolding(crate::specs::Looks::inside))]
fn inside(source: &[u8], token: Token) -> &[u8]
    ensures { result.now ≡ spec.inside source.now token }
{
    if source.len() <= token.span.start {
        return &[];
    }
    slice(
        source,
        token.span.start + 1,
        token.span.end.saturating_sub(1),
    )
}

#[tactic(auto, unfolding(crate::specs::Looks::word_of))]
fn shown(source: &[u8], token: Token) -> &[u8]
    ensures { result.now ≡ spec.word_of source.now token }
{
    match token.kind {
        Kind::Str => shown_string(inside(source, token)),
        _ => shown_word(text(source, token)),
    }
}

/// The word by which the token is shown where a macro is refused at it.
pub fn word_of(alloc: Global, source: &[u8], token: Token) -> Result<Text, NoMemory>
    ensures { IfOk result (λ t. t ≡ spec.word_of source.now token) }
{
    Text::from_bytes(alloc, shown(source, token))
}
