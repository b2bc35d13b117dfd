//! The bytes of items, and how refused constructs are shown.
ghost use Rattle.std.specs.Prelude.{◌≡◌, IfOk, slice_range};
ghost use Rattle.verilog_looks.specs.Looks as looks;
ghost use Rattle.verilog_looks.specs.Names as spec;

use crate::look::{Look, look_of};
use file_rules::{shown_string, shown_word, slice};
use std::alloc::Global;
use text_scan::{Kind, Limits, NoMemory, Text, Token};
use verilog_directives::Left;

/// The token's bytes.
#[tactic(auto, unfolding(crate::specs::Looks::text))]
pub fn text(source: &[u8], token: Token) -> &[u8]
    ensures { result.now ≡ looks.text source.now token }
{
    slice(source, token.span.start, token.span.end)
}

fn unescaped(word: &[u8]) -> &[u8]
    ensures { result.now ≡ spec.unescaped word.now }
{
    match word {
        [] => word,
        [byte, rest @ ..] => { if *byte == b'\\' { rest } else { word } }
    }
}

/// The name that an identifier stands for.
#[tactic(auto, unfolding(crate::specs::Names::content))]
pub fn content(source: &[u8], token: Token) -> &[u8]
    ensures { result.now ≡ spec.content source.now token }
{
    unescaped(text(source, token))
}

#[tactic(auto, unfolding(crate::specs::Names::inside))]
fn inside(source: &[u8], token: Token) -> &[u8]
    ensures { result.now ≡ spec.inside source.now token }
{
    if source.len() <= token.span.start {
        return &[];
    }
    slice(
        source,
        token.span.start + 1,
        token.span.end.saturating_sub(1),
    )
}

fn token_word(source: &[u8], token: Token) -> &[u8]
    ensures { result.now ≡ spec.token_word source.now token }
{
    match token.kind {
        Kind::Str => shown_string(inside(source, token)),
        _ => shown_word(text(source, token)),
    }
}

/// The word by which the item is shown where its part is refused at it.
#[tactic(auto, unfolding(crate::specs::Names::word_of))]
pub fn word_of(alloc: Global, source: &[u8], item: &Left) -> Result<Text, NoMemory>
    ensures { IfOk result (λ t. t ≡ spec.word_of source.now item.now) }
{
    let word = match look_of(source, item) {
        Look::Macro => b"macro".as_slice(),
        Look::EndModule | Look::EndPrimitive => b"end".as_slice(),
        _ => token_word(source, item.token),
    };
    Text::from_bytes(alloc, word)
}
