//! What a token is for the grammar.
ghost use Rattle.std.specs.Prelude.{◌≡◌};
ghost use Rattle.text_scan.specs.Left.{IsSliceOf};
ghost use Rattle.liberty_tokens.specs.Looks as spec;

use text_scan::{Kind, Token};

#[derive(Clone, Copy, Debug, PartialEq, Eq)]
pub enum Look {
    Word,
    Str,
    OpenParen,
    CloseParen,
    OpenBrace,
    CloseBrace,
    Semicolon,
    Colon,
    Comma,
    /// A byte that no rule names.
    Unnamed,
    LineEnd,
    End,
    Unfinished,
}

#[tactic(auto, unfolding(crate::specs::Looks::sign_look))]
fn sign_look(byte: u8) -> Look
    ensures { result ≡ spec.sign_look byte }
{
    match byte {
        b'(' => Look::OpenParen,
        b')' => Look::CloseParen,
        b'{' => Look::OpenBrace,
        b'}' => Look::CloseBrace,
        b';' => Look::Semicolon,
        b':' => Look::Colon,
        b',' => Look::Comma,
        _ => Look::Unnamed,
    }
}

fn byte_at(source: &[u8], at: usize) -> u8
    ensures { result ≡ spec.byte_at source.now at }
{
    if at < source.len() { source[at] } else { 0 }
}

#[tactic(auto, unfolding(crate::specs::Looks::look_of))]
pub fn look_of(source: &[u8], token: Token) -> Look
    ensures { result ≡ spec.look_of source.now token }
{
    match token.kind {
        Kind::Word => Look::Word,
        Kind::Str => Look::Str,
        Kind::Sign => sign_look(byte_at(source, token.span.start)),
        Kind::Unfinished => Look::Unfinished,
        Kind::LineEnd => Look::LineEnd,
        Kind::End => Look::End,
    }
}
