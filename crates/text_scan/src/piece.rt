//! What begins at a place of a text.
ghost use Rattle.std.specs.Prelude.{◌≡◌, ◌≤◌, ◌<◌, ◌∷◌, ◌+◌, ◌^◌, length, drop};
ghost use Rattle.text_scan.specs.Pieces as pieces;
ghost use Rattle.text_scan.specs.Tokens.{size};
ghost use Rattle.text_scan.specs.declared.token.Kind.TheVariants.{Word};
ghost use Rattle.text_scan.specs.declared.piece.Piece.TheVariants.{Shown};

use crate::bytes::{begins_with_pair, is_blank, is_digit, is_letter, is_liberty_byte, is_space};
use crate::search::{
    until_byte, until_comment_end, until_identifier_end, until_liberty_word_end, until_number_end,
    until_space,
};
use crate::token::{Kind, Style};

/// Bytes that belong to no token, or a token, with its number of bytes.
#[derive(Clone, Copy, Debug, PartialEq, Eq)]
pub(crate) enum Piece {
    Passed(usize),
    Shown(Kind, usize),
}

// The string whose quote stands before the rest.
#[tactic(auto, unfolding(crate::specs::Pieces::string))]
fn string(rest: &[u8]) -> Piece
    ensures { result ≡ pieces.string rest.now }
{
    let n = until_byte(b'"', rest);
    if n < rest.len() {
        Piece::Shown(Kind::Str, n + 2)
    } else {
        Piece::Shown(Kind::Unfinished, n + 1)
    }
}

fn after_first(text: &[u8]) -> &[u8]
    ensures { result.now ≡ drop 1 text.now }
{
    match text {
        [] => text,
        [_, rest @ ..] => rest,
    }
}

// The comment whose first byte stands before the rest.
#[tactic(auto, unfolding(crate::specs::Pieces::comment))]
fn comment(rest: &[u8]) -> Piece
    ensures { result ≡ pieces.comment rest.now }
{
    let inside = after_first(rest);
    let n = until_comment_end(inside);
    if n < inside.len() {
        Piece::Passed(n + 4)
    } else {
        Piece::Shown(Kind::Unfinished, n + 2)
    }
}

// The comment to the line's end whose first byte stands before the rest.
#[tactic(auto, unfolding(crate::specs::Pieces::line_comment))]
fn line_comment(rest: &[u8]) -> Piece
    ensures { result ≡ pieces.line_comment rest.now }
{
    Piece::Passed(until_byte(b'\n', rest) + 1)
}

fn word(more: usize) -> Piece
    requires { more + 1 < 2 ^ 64 }
    ensures { result ≡ Shown Word (more + 1) }
{
    Piece::Shown(Kind::Word, more + 1)
}

#[tactic(auto, unfolding(crate::specs::Pieces::liberty_piece, crate::specs::Pieces::word))]
fn liberty_piece(byte: u8, rest: &[u8], text: &[u8]) -> Piece
    requires { text.now ≡ byte ∷ rest.now }
    ensures { result ≡ pieces.liberty_piece byte rest.now }
{
    if is_blank(byte) {
        Piece::Passed(1)
    } else if byte == b'\n' {
        Piece::Shown(Kind::LineEnd, 1)
    } else if byte == b'"' {
        string(rest)
    } else if begins_with_pair(b'/', b'*', text) {
        comment(rest)
    } else if begins_with_pair(b'\\', b'\n', text) {
        Piece::Passed(2)
    } else if is_liberty_byte(byte) {
        word(until_liberty_word_end(rest))
    } else {
        Piece::Shown(Kind::Sign, 1)
    }
}

#[tactic(auto, unfolding(crate::specs::Pieces::verilog_piece, crate::specs::Pieces::word))]
fn verilog_piece(byte: u8, rest: &[u8], text: &[u8]) -> Piece
    requires { text.now ≡ byte ∷ rest.now }
    ensures { result ≡ pieces.verilog_piece byte rest.now }
{
    if is_space(byte) {
        Piece::Passed(1)
    } else if byte == b'"' {
        string(rest)
    } else if begins_with_pair(b'/', b'*', text) {
        comment(rest)
    } else if begins_with_pair(b'/', b'/', text) {
        line_comment(rest)
    } else if byte == b'\\' {
        word(until_space(rest))
    } else if is_letter(byte) {
        word(until_identifier_end(rest))
    } else if is_digit(byte) {
        word(until_number_end(rest))
    } else {
        Piece::Shown(Kind::Sign, 1)
    }
}

#[tactic(auto, unfolding(crate::specs::Pieces::lef_piece, crate::specs::Pieces::word))]
fn lef_piece(byte: u8, rest: &[u8]) -> Piece
    ensures { result ≡ pieces.lef_piece byte rest.now }
{
    if is_space(byte) {
        Piece::Passed(1)
    } else if byte == b'#' {
        line_comment(rest)
    } else if byte == b'"' {
        string(rest)
    } else {
        word(until_space(rest))
    }
}

#[tactic(auto, unfolding(crate::specs::Pieces::words_piece, crate::specs::Pieces::word))]
fn words_piece(byte: u8, rest: &[u8]) -> Piece
    ensures { result ≡ pieces.words_piece byte rest.now }
{
    if is_blank(byte) {
        Piece::Passed(1)
    } else if byte == b'\n' {
        Piece::Shown(Kind::LineEnd, 1)
    } else {
        word(until_space(rest))
    }
}

#[tactic(auto, unfolding(crate::specs::Pieces::piece))]
fn piece_by_style(style: Style, byte: u8, rest: &[u8], text: &[u8]) -> Piece
    requires { text.now ≡ byte ∷ rest.now }
    ensures { result ≡ pieces.piece style byte rest.now }
{
    match style {
        Style::Liberty => liberty_piece(byte, rest, text),
        Style::Verilog => verilog_piece(byte, rest, text),
        Style::Lef => lef_piece(byte, rest),
        Style::Words => words_piece(byte, rest),
    }
}

// What begins the text, of which the byte is the first and the rest what follows.
#[tactic(auto, using(crate::proofs::Size::piece_some, crate::proofs::Size::piece_within))]
pub(crate) fn piece_of(style: Style, byte: u8, rest: &[u8], text: &[u8]) -> Piece
    requires { text.now ≡ byte ∷ rest.now }
    ensures value { result ≡ pieces.piece style byte rest.now }
    ensures some { 0 < size result }
    ensures within { size result ≤ length text.now }
{
    piece_by_style(style, byte, rest, text)
}
