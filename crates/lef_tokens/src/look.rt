//! What a token is for the grammar.
ghost use Rattle.std.specs.Prelude.{◌≡◌};
ghost use Rattle.lef_tokens.specs.Looks as spec;

use crate::names::text;
use text_scan::{Kind, Token};

/// What a token is for the grammar; letters are equal in both cases.
#[derive(Clone, Copy, Debug, PartialEq, Eq)]
pub enum Look {
    /// `END`.
    End,
    Pin,
    /// `OBS` or `DENSITY`, which end with `END` alone.
    Shapes,
    Size,
    Direction,
    Use,
    Port,
    Input,
    Output,
    Tristate,
    Inout,
    Feedthru,
    /// `SIGNAL`, `ANALOG` or `CLOCK`.
    Signal,
    Power,
    Ground,
    Macro,
    /// `LAYER`, `VIA`, `VIARULE`, `SITE`, `NONDEFAULTRULE` or `ARRAY`, which end with `END` and their name.
    Section,
    /// `UNITS`, `PROPERTYDEFINITIONS` or `SPACING`, which end with `END` and that word.
    Block,
    /// `BEGINEXT`.
    Extension,
    Library,
    /// Any other word.
    Other,
    /// A string.
    Text,
    /// What may stand nowhere: a string without an end.
    Barred,
    /// The end of the text.
    Over,
}

/// Whether the words are the same but for the case of ASCII letters.
#[tactic(auto, unfolding(crate::specs::Looks::is_same_word))]
pub fn is_same_word(a: &[u8], b: &[u8]) -> bool
    ensures { result ≡ spec.is_same_word a.now b.now }
{
    a.eq_ignore_ascii_case(b)
}

#[tactic(auto, unfolding(crate::specs::Looks::three_look))]
fn three_look(word: &[u8]) -> Look
    ensures { result ≡ spec.three_look word.now }
{
    if is_same_word(word, b"end") {
        Look::End
    } else if is_same_word(word, b"pin") {
        Look::Pin
    } else if is_same_word(word, b"obs") {
        Look::Shapes
    } else if is_same_word(word, b"use") {
        Look::Use
    } else if is_same_word(word, b"via") {
        Look::Section
    } else {
        Look::Other
    }
}

#[tactic(auto, unfolding(crate::specs::Looks::four_look))]
fn four_look(word: &[u8]) -> Look
    ensures { result ≡ spec.four_look word.now }
{
    if is_same_word(word, b"port") {
        Look::Port
    } else if is_same_word(word, b"size") {
        Look::Size
    } else if is_same_word(word, b"site") {
        Look::Section
    } else {
        Look::Other
    }
}

#[tactic(auto, unfolding(crate::specs::Looks::five_look))]
fn five_look(word: &[u8]) -> Look
    ensures { result ≡ spec.five_look word.now }
{
    if is_same_word(word, b"macro") {
        Look::Macro
    } else if is_same_word(word, b"layer") || is_same_word(word, b"array") {
        Look::Section
    } else if is_same_word(word, b"units") {
        Look::Block
    } else if is_same_word(word, b"input") {
        Look::Input
    } else if is_same_word(word, b"inout") {
        Look::Inout
    } else if is_same_word(word, b"power") {
        Look::Power
    } else if is_same_word(word, b"clock") {
        Look::Signal
    } else {
        Look::Other
    }
}

#[tactic(auto, unfolding(crate::specs::Looks::six_look))]
fn six_look(word: &[u8]) -> Look
    ensures { result ≡ spec.six_look word.now }
{
    if is_same_word(word, b"output") {
        Look::Output
    } else if is_same_word(word, b"signal") || is_same_word(word, b"analog") {
        Look::Signal
    } else if is_same_word(word, b"ground") {
        Look::Ground
    } else {
        Look::Other
    }
}

#[tactic(auto, unfolding(crate::specs::Looks::seven_look))]
fn seven_look(word: &[u8]) -> Look
    ensures { result ≡ spec.seven_look word.now }
{
    if is_same_word(word, b"density") {
        Look::Shapes
    } else if is_same_word(word, b"library") {
        Look::Library
    } else if is_same_word(word, b"viarule") {
        Look::Section
    } else if is_same_word(word, b"spacing") {
        Look::Block
    } else {
        Look::Other
    }
}

#[tactic(auto, unfolding(crate::specs::Looks::eight_look))]
fn eight_look(word: &[u8]) -> Look
    ensures { result ≡ spec.eight_look word.now }
{
    if is_same_word(word, b"feedthru") {
        Look::Feedthru
    } else if is_same_word(word, b"tristate") {
        Look::Tristate
    } else if is_same_word(word, b"beginext") {
        Look::Extension
    } else {
        Look::Other
    }
}

#[tactic(auto, unfolding(crate::specs::Looks::long_look))]
fn long_look(word: &[u8]) -> Look
    ensures { result ≡ spec.long_look word.now }
{
    if is_same_word(word, b"direction") {
        Look::Direction
    } else if is_same_word(word, b"nondefaultrule") {
        Look::Section
    } else if is_same_word(word, b"propertydefinitions") {
        Look::Block
    } else {
        Look::Other
    }
}

#[tactic(auto, unfolding(crate::specs::Looks::longer_look))]
fn longer_look(word: &[u8]) -> Look
    ensures { result ≡ spec.longer_look word.now }
{
    match word.len() {
        6 => six_look(word),
        7 => seven_look(word),
        8 => eight_look(word),
        _ => long_look(word),
    }
}

#[tactic(auto, unfolding(crate::specs::Looks::word_look))]
fn word_look(word: &[u8]) -> Look
    ensures { result ≡ spec.word_look word.now }
{
    match word.len() {
        3 => three_look(word),
        4 => four_look(word),
        5 => five_look(word),
        _ => longer_look(word),
    }
}

#[tactic(auto, unfolding(crate::specs::Looks::look_of))]
pub fn look_of(source: &[u8], token: Token) -> Look
    ensures { result ≡ spec.look_of source.now token }
{
    match token.kind {
        Kind::Word => word_look(text(source, token)),
        Kind::Str => Look::Text,
        Kind::Sign | Kind::Unfinished | Kind::LineEnd => Look::Barred,
        Kind::End => Look::Over,
    }
}
